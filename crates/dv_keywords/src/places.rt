ghost use Rattle.std.specs.Prelude.{◌≡◌, [], ◌∷◌, OnOk, OnErr, Ok};
ghost use Rattle.dv_model.specs.Effects.{keywords_after, with_place};

use dv_model::{How, List, NoMemory};
use std::alloc::{AllocError, Global};
use std::mem;

// Puts a place before the first one that is larger, unless it is there.
fn insert(place: u32, places: &mut Vec<u32>) -> Result<(), AllocError>
    ensures ok { OnOk result (places.new.items ≡ with_place place places.old.items) }
    ensures err { OnErr result (places.new.items ≡ places.old.items) }
{
    let mut at = 0;
    while at < places.len() && places[at] < place {
        at += 1;
    }
    if at < places.len() && places[at] == place {
        return Ok(());
    }
    places.insert(at, place)?;
    Ok(())
}

// Leaves this place alone.
fn replace(place: u32, places: &mut Vec<u32>) -> Result<(), AllocError>
    ensures ok { OnOk result (places.new.items ≡ place ∷ []) }
    ensures err { OnErr result (places.new.items ≡ places.old.items) }
{
    if places.is_empty() {
        places.push(place)?;
        return Ok(());
    }
    places.truncate(1);
    places[0] = place;
    Ok(())
}

fn change_items(how: How, place: u32, places: &mut Vec<u32>) -> Result<(), AllocError>
    ensures ok { OnOk result (places.new.items ≡ keywords_after how place places.old.items) }
    ensures err { OnErr result (places.new.items ≡ places.old.items) }
    ensures removes { how ≡ How.Remove → result ≡ Ok tt }
{
    match how {
        How::Add => insert(place, places),
        How::Remove => {
            places.retain(|known| *known != place);
            Ok(())
        }
        How::Replace => replace(place, places),
    }
}

/// Changes a row's keywords, which are places in the table, as a keyword update says (Dovecot's
/// `mail_transaction_keyword_update`). After `NoMemory` they are as before; a removal takes no
/// memory.
pub fn change(alloc: Global, how: How, place: u32, places: &mut List<u32>) -> Result<(), NoMemory>
    ensures ok { OnOk result (places.new ≡ keywords_after how place places.old) }
    ensures err { OnErr result (places.new ≡ places.old) }
    ensures removes { how ≡ How.Remove → result ≡ Ok tt }
{
    let mut items = mem::replace(places, List::new(alloc)).into_vec();
    let done = change_items(how, place, &mut items);
    *places = List::from_vec(items);
    Ok(done?)
}
