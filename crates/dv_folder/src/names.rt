ghost use Rattle.std.specs.Prelude.{◌≡◌, ◌≢◌, ◌++◌, ◌<◌, ◌^◌, ℕ, List, codes, decimal, MatchOption, OnOk, string_bytes};
ghost use Rattle.dv_shelf.specs.declared.shelf.Name.{Name};
ghost use Rattle.dv_shelf.specs.declared.shelf.Name.TheVariants.{Mail};
ghost use Rattle.dv_folder.specs.Names.{file_name, IsName};

use dv_shelf::Name;
use itoa::Buffer;
use std::alloc::AllocError;

/// How the files of a folder are named.
#[derive(Clone, Copy, PartialEq, Eq)]
pub enum Layout {
    /// A mailbox's: `dovecot.index`, its log and cache, and message files `u.N`.
    Mailbox,
    /// A storage's, in the folder `storage` of the folder: `dovecot.map.index`, its log and cache,
    /// and files `m.N`.
    Storage,
}

/// Adds the name of a file.
pub(crate) fn push_name(text: &mut String, layout: Layout, name: Name) -> Result<(), AllocError>
    ensures { OnOk result (string_bytes text.new ≡ string_bytes text.old ++ file_name layout name) }
{
    match layout {
        Layout::Mailbox => push_mailbox_name(text, name),
        Layout::Storage => push_storage_name(text, name),
    }
}

fn push_mailbox_name(text: &mut String, name: Name) -> Result<(), AllocError>
    ensures { OnOk result (string_bytes text.new
        ≡ string_bytes text.old ++ file_name Layout.Mailbox name) }
{
    match name {
        Name::Index => text.push_str("dovecot.index"),
        Name::Log => text.push_str("dovecot.index.log"),
        Name::Log2 => text.push_str("dovecot.index.log.2"),
        Name::Cache => text.push_str("dovecot.index.cache"),
        Name::Mail(n) => {
            text.push_str("u.")?;
            text.push_str(Buffer::new().format(n))
        }
    }
}

fn push_storage_name(text: &mut String, name: Name) -> Result<(), AllocError>
    ensures { OnOk result (string_bytes text.new
        ≡ string_bytes text.old ++ file_name Layout.Storage name) }
{
    match name {
        Name::Index => text.push_str("dovecot.map.index"),
        Name::Log => text.push_str("dovecot.map.index.log"),
        Name::Log2 => text.push_str("dovecot.map.index.log.2"),
        Name::Cache => text.push_str("dovecot.map.index.cache"),
        Name::Mail(n) => {
            text.push_str("m.")?;
            text.push_str(Buffer::new().format(n))
        }
    }
}

/// The name that a file of the folder has, or `None` for another file.
pub(crate) fn name_of(layout: Layout, text: &str) -> Option<Name>
    ensures { MatchOption result ((n : Name) → IsName n → file_name layout n ≢ text.now)
        (λ n. file_name layout n ≡ text.now) }
{
    match layout {
        Layout::Mailbox => mailbox_name_of(text),
        Layout::Storage => storage_name_of(text),
    }
}

fn mailbox_name_of(text: &str) -> Option<Name>
    ensures { MatchOption result ((n : Name) → IsName n → file_name Layout.Mailbox n ≢ text.now)
        (λ n. file_name Layout.Mailbox n ≡ text.now) }
{
    match text {
        "dovecot.index" => Some(Name::Index),
        "dovecot.index.log" => Some(Name::Log),
        "dovecot.index.log.2" => Some(Name::Log2),
        "dovecot.index.cache" => Some(Name::Cache),
        _ => mailbox_mail_of(text),
    }
}

fn storage_name_of(text: &str) -> Option<Name>
    ensures { MatchOption result ((n : Name) → IsName n → file_name Layout.Storage n ≢ text.now)
        (λ n. file_name Layout.Storage n ≡ text.now) }
{
    match text {
        "dovecot.map.index" => Some(Name::Index),
        "dovecot.map.index.log" => Some(Name::Log),
        "dovecot.map.index.log.2" => Some(Name::Log2),
        "dovecot.map.index.cache" => Some(Name::Cache),
        _ => storage_mail_of(text),
    }
}

fn mailbox_mail_of(text: &str) -> Option<Name>
    ensures { MatchOption result
        ((n : ℕ) → n < 2 ^ 32 → file_name Layout.Mailbox (Mail n) ≢ text.now)
        (λ name. file_name Layout.Mailbox name ≡ text.now) }
{
    let n = number_of(behind_u(text)?)?;
    Some(Name::Mail(n))
}

fn storage_mail_of(text: &str) -> Option<Name>
    ensures { MatchOption result
        ((n : ℕ) → n < 2 ^ 32 → file_name Layout.Storage (Mail n) ≢ text.now)
        (λ name. file_name Layout.Storage name ≡ text.now) }
{
    let n = number_of(behind_m(text)?)?;
    Some(Name::Mail(n))
}

fn behind_u(text: &str) -> Option<&str>
    ensures { MatchOption result ((rest : List ℕ) → text.now ≢ codes "u." ++ rest)
        (λ rest. text.now ≡ codes "u." ++ rest.now) }
{
    text.strip_prefix('u')?.strip_prefix('.')
}

fn behind_m(text: &str) -> Option<&str>
    ensures { MatchOption result ((rest : List ℕ) → text.now ≢ codes "m." ++ rest)
        (λ rest. text.now ≡ codes "m." ++ rest.now) }
{
    text.strip_prefix('m')?.strip_prefix('.')
}

// The number whose decimal digits these are: without a sign and leading zeros.
fn number_of(digits: &str) -> Option<u32>
    ensures { MatchOption result ((n : ℕ) → n < 2 ^ 32 → decimal n ≢ digits.now)
        (λ n. decimal n ≡ digits.now) }
{
    let n: u32 = digits.parse().ok()?;
    if Buffer::new().format(n) != digits {
        return None;
    }
    Some(n)
}
