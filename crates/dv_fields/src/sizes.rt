ghost use Rattle.std.specs.Prelude.{◌≡◌};
ghost use Rattle.dv_model.specs.Fields.{physical_size, virtual_size};

/// The number of bytes of a message as it is.
pub fn physical(message: &[u8]) -> u64
    ensures { result ≡ physical_size message.now }
{
    message.len() as u64
}

/// The number of bytes of a message when each of its lines ends in CRLF: a line feed that no
/// carriage return precedes counts twice.
pub fn virtual_size(message: &[u8]) -> u64
    ensures { result ≡ virtual_size message.now }
{
    let mut size = message.len() as u64;
    let mut previous = 0;
    for b in message {
        if *b == b'\n' && previous != b'\r' {
            size += 1;
        }
        previous = *b;
    }
    size
}
