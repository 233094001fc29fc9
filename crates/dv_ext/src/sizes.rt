ghost use Rattle.std.specs.Prelude.{◌≡◌};
ghost use Rattle.dv_ext.specs.Sizes.{have_sizes};

use dv_model::Extension;

/// Whether rows have as many parts for the one extensions as for the others, of the same sizes.
pub fn have_sizes(one: &[Extension], other: &[Extension]) -> bool
    ensures { result ≡ have_sizes one.now other.now }
{
    if one.len() != other.len() {
        return false;
    }
    for at in 0..one.len() {
        if one[at].record_size != other[at].record_size {
            return false;
        }
    }
    true
}
