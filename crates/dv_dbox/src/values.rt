ghost use Rattle.std.specs.Prelude.{◌≡◌};
ghost use Rattle.std.specs.Option.{option_copied};
ghost use Rattle.dv_dbox.specs.BoxTexts.{value_of};
ghost use Rattle.dv_dbox.specs.Reading.{texts};

/// The value of the first item of this key.
pub(crate) fn value_of<'a>(items: &[&'a [u8]], key: u8) -> Option<&'a [u8]>
    ensures { option_copied result ≡ value_of key (texts items.now) }
{
    for item in items {
        if let [first, value @ ..] = *item
            && *first == key
        {
            return Some(value);
        }
    }
    None
}
