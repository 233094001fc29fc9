ghost use Rattle.std.specs.Prelude.{◌≡◌, IfOk, None, Some, cond};
ghost use Rattle.dv_model.specs.declared.types.Command.{Command};
ghost use Rattle.dv_responses.specs.Asked.{Asks};
ghost use Rattle.dv_responses.specs.Supplied.{DescribesAsked, facts_from, values_of};

use crate::asking::Asked;
use dv_fields::{field_of, virtual_size};
use dv_model::{Bytes, Duplicate, List, NoMemory};
use dv_search::MailFacts;
use std::alloc::Global;

// Each field with its value, where the message has it.
fn values_of(
    alloc: Global,
    message: &[u8],
    names: &[Bytes],
) -> Result<List<(Bytes, Option<Bytes>)>, NoMemory>
    ensures { IfOk result (λ values. values ≡ values_of message.now names.now) }
{
    let mut values = List::new(alloc);
    for name in names {
        let value = field_of(alloc, message, name.as_slice())?;
        values.push((name.duplicate(alloc)?, value))?;
    }
    Ok(values)
}

// The message's bytes, where they are asked.
fn body_if(asked: bool, message: Bytes) -> Option<Bytes>
    ensures { result ≡ cond asked (Some message) None }
{
    if asked { Some(message) } else { None }
}

/// The facts of a message, as far as they are asked. `NoMemory` is the only error. The message's
/// bytes aren't copied.
pub fn facts_from(
    alloc: Global,
    asked: &Asked,
    uid: u32,
    message: Bytes,
) -> Result<MailFacts, NoMemory>
    ensures is { IfOk result (λ facts. facts ≡ facts_from asked.now uid message) }
    // So they describe the message, as far as a command asks it.
    ensures describes { (c : Command) → Asks c asked.now
        → IfOk result (DescribesAsked c message) }
{
    let size = virtual_size(message.as_slice());
    let fields = values_of(alloc, message.as_slice(), asked.fields.as_slice())?;
    Ok(MailFacts {
        uid,
        size,
        body: body_if(asked.body, message),
        fields,
    })
}
