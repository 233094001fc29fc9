ghost use Rattle.std.specs.Prelude.{◌≡◌, ℕ, List, Option, Some, bytes_eq, find};
ghost use Rattle.std.specs.Option.{option_copied};
ghost use Rattle.dv_search.specs.Facts.{AreRising, facts_of, known_field};

use dv_model::{Bytes, List};

/// What is known of a message, so that it is answered for without reading it again.
#[derive(Drop)]
pub struct MailFacts {
    pub uid: u32,
    /// The number of bytes where each line ends in CRLF (RFC822.SIZE).
    pub size: u64,
    /// The message's bytes, where they were asked. A search asks no bytes.
    pub body: Option<Bytes>,
    /// Names as they were asked, and the value of the message's first field of that name; `None`
    /// where it has no such field.
    pub fields: List<(Bytes, Option<Bytes>)>,
}

/// The facts of a UID, found by halves.
pub fn facts_of(mail: &[MailFacts], uid: u32) -> Option<&MailFacts>
    requires { AreRising mail.now }
    ensures { option_copied result ≡ facts_of mail.now uid }
{
    let at = mail.partition_point(|facts| facts.uid < uid);
    if at >= mail.len() {
        return None;
    }
    let facts = &mail[at];
    if facts.uid != uid {
        return None;
    }
    Some(facts)
}

fn field_named<'a>(
    fields: &'a [(Bytes, Option<Bytes>)],
    name: &[u8],
) -> Option<&'a (Bytes, Option<Bytes>)>
    ensures { option_copied result ≡ find (λ f. bytes_eq f.0 name.now) fields.now }
{
    fields.iter().find(|field| field.0.as_slice() == name)
}

/// The value of the field of this name, where it is known that the message has one.
pub fn value_of<'a>(facts: &'a MailFacts, name: &[u8]) -> Option<&'a Bytes>
    ensures { (value : Option (List ℕ)) → known_field facts.now.fields name.now ≡ Some value
        → option_copied result ≡ value }
{
    match field_named(facts.fields.as_slice(), name) {
        Some((_, value)) => value.as_ref(),
        None => None,
    }
}
