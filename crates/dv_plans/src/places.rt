//! Places of the log.

ghost use Rattle.std.specs.Prelude.{◌≡◌, ◌<◌, true};
ghost use Rattle.dv_plans.specs.Begins as begins;
ghost use Rattle.dv_files.specs.Texts as texts;

use dv_chain::Chain;
use dv_model::Mark;

/// The size of a log file's header, in bytes.
const HEADER_SIZE: u32 = 40;

/// The end of a chain's log.
pub fn place_of(chain: &Chain) -> Mark
    ensures { result ≡ texts.place_of chain.now }
{
    Mark {
        file_seq: chain.log.file_seq,
        offset: chain.log.end,
    }
}

/// The place where a chain's next group begins: the end of its log, or the first place of the file
/// behind it.
pub fn beginning(chain: &Chain, anew: bool) -> Mark
    requires { anew ≡ true → chain.now.log.file_seq < 4294967295 }
    ensures { result ≡ begins.beginning anew chain.now }
{
    if !anew {
        return place_of(chain);
    }
    Mark {
        file_seq: chain.log.file_seq + 1,
        offset: HEADER_SIZE,
    }
}
