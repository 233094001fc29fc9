//! What views and live mailboxes keep of themselves.

ghost use Rattle.dv_model.specs.Journals.{HasResets, IsU32};
ghost use Rattle.dv_model.specs.Mailboxes.{IsValid};
ghost use Rattle.dv_view.specs.Orders.{IsOrdered};

use dv_apply::Live;
use dv_view::View;

/// A number of 32 bits is one. Nothing is computed.
pub fn is_number(n: u32)
    ensures { IsU32 n }
{}

/// The rows of a view rise, a live mailbox is valid, and each extension's reset number is of
/// 32 bits, as their types have it. Nothing is computed.
pub fn have_bounds(view: &View, live: &Live)
    ensures ordered { IsOrdered view.now }
    ensures valid { IsValid live.now.mailbox }
    ensures resets { HasResets live.now.mailbox }
{
    let _rows = view.rows();
    let _next = live.next_uid();
    for extension in live.extensions().list().as_slice() {
        is_number(extension.reset_id);
    }
}
