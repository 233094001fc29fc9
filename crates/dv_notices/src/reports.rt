//! What a rebuild found, as text.

ghost use Rattle.std.specs.Prelude.{◌≡◌, ◌++◌, ℕ, List, flat_map, IfOk, OnOk};
ghost use Rattle.dv_notices.specs.Reports.{around, cache_text, cause_words, cut_text, fault_words, line_of, line_when, more_text, remains_text, report_text, skip_text, skipped_text, source_text, source_words, sources_text, stay_text, unknown_text, validity_text};

use dv_dbox::BoxFault;
use dv_model::{Bytes, List, NoMemory};
use dv_rebuild::{Rebuilt, Remains, Skip, SkipCause, Source, Sources, Validity};
use dv_script::decimal_text;
use std::alloc::Global;

/// Adds a line of some words.
fn put_line(text: &mut Bytes, words: &[u8]) -> Result<(), NoMemory>
    ensures { OnOk result (text.new ≡ text.old ++ line_of words.now) }
{
    text.extend(words)?;
    text.push(b'\n')?;
    Ok(())
}

/// Adds a line of some words where it is to be told.
fn put_line_when(text: &mut Bytes, is_told: bool, words: &[u8]) -> Result<(), NoMemory>
    ensures { OnOk result (text.new ≡ text.old ++ line_when is_told words.now) }
{
    if is_told {
        put_line(text, words)
    } else {
        Ok(())
    }
}

/// Adds words, a number, and words behind it.
fn put_around(
    text: &mut Bytes,
    alloc: Global,
    front: &[u8],
    n: u64,
    rest: &[u8],
) -> Result<(), NoMemory>
    ensures { OnOk result (text.new ≡ text.old ++ around front.now n rest.now) }
{
    text.extend(front)?;
    text.extend(decimal_text(alloc, n)?.as_slice())?;
    text.extend(rest)?;
    Ok(())
}

/// What came of a file, in words.
fn source_words(source: Source) -> &'static [u8]
    ensures { result.now ≡ source_words source }
{
    match source {
        Source::Missing => b"there is none",
        Source::Broken => b"not readable",
        Source::Apart => b"does not belong to dovecot.index.log",
        Source::Unused => b"readable, but not used",
        Source::Taken => b"flags and keywords come from it",
    }
}

/// Adds the line of a file.
fn put_source(text: &mut Bytes, name: &[u8], source: Source) -> Result<(), NoMemory>
    ensures { OnOk result (text.new ≡ text.old ++ source_text name.now source) }
{
    text.extend(name)?;
    text.extend(b": ")?;
    put_line(text, source_words(source))
}

/// Adds the lines of the three files.
fn put_sources(text: &mut Bytes, sources: Sources) -> Result<(), NoMemory>
    ensures { OnOk result (text.new ≡ text.old ++ sources_text sources) }
{
    put_source(text, b"dovecot.index.log", sources.log)?;
    put_source(text, b"dovecot.index.log.2", sources.rotated)?;
    put_source(text, b"dovecot.index", sources.index)
}

/// Adds a line where an append that is refused ended what counts.
fn put_cut(text: &mut Bytes, is_cut: bool) -> Result<(), NoMemory>
    ensures { OnOk result (text.new ≡ text.old ++ cut_text is_cut) }
{
    put_line_when(
        text,
        is_cut,
        b"an append in the log is refused: no record from there on counts",
    )
}

/// Adds how many of the kept messages have no row in these files.
fn put_unknown(text: &mut Bytes, alloc: Global, n: u32) -> Result<(), NoMemory>
    ensures { OnOk result (text.new ≡ text.old ++ unknown_text n) }
{
    put_around(
        text,
        alloc,
        b"messages in none of these files, kept without flags: ",
        n as u64,
        b"\n",
    )
}

/// Adds the UIDVALIDITY, and whether it is new.
fn put_validity(text: &mut Bytes, alloc: Global, validity: Validity) -> Result<(), NoMemory>
    ensures { OnOk result (text.new ≡ text.old ++ validity_text validity) }
{
    match validity {
        Validity::Kept(n) => { put_around(text, alloc, b"UIDVALIDITY ", n as u64, b": kept\n") }
        Validity::New(n) => put_around(
            text,
            alloc,
            b"UIDVALIDITY ",
            n as u64,
            b": new, so clients load the mailbox anew\n",
        ),
    }
}

/// Adds what was left beside the message files.
fn put_remains(text: &mut Bytes, alloc: Global, remains: &Remains) -> Result<(), NoMemory>
    ensures { OnOk result (text.new ≡ text.old ++ remains_text remains.now) }
{
    put_sources(text, remains.sources)?;
    put_cut(text, remains.is_cut)?;
    put_unknown(text, alloc, remains.unknown)?;
    put_validity(text, alloc, remains.validity)
}

/// The part of a message file that breaks the format, in words.
fn fault_words(fault: BoxFault) -> &'static [u8]
    ensures { result.now ≡ fault_words fault }
{
    match fault {
        BoxFault::BadHeader => b"its first line is damaged",
        BoxFault::BadMessageHeader => b"its message header is damaged",
        BoxFault::BadSize => b"it ends before its message does",
        BoxFault::BadEnd => b"the mark behind its message is damaged",
        BoxFault::BadMetadata => b"its metadata are damaged",
    }
}

/// Why a message file is skipped, in words.
fn cause_words(cause: SkipCause) -> &'static [u8]
    ensures { result.now ≡ cause_words cause }
{
    match cause {
        SkipCause::NoUid => b"its number may be no UID",
        SkipCause::Gone => b"it was listed and then gone",
        SkipCause::Broken(fault) => fault_words(fault),
    }
}

/// Adds the line of a skipped file.
fn put_skip(text: &mut Bytes, alloc: Global, skip: Skip) -> Result<(), NoMemory>
    ensures { OnOk result (text.new ≡ text.old ++ skip_text skip) }
{
    put_around(text, alloc, b"u.", u64::from(skip.number), b" skipped: ")?;
    put_line(text, cause_words(skip.cause))
}

/// Adds the lines of the skipped files that are listed.
fn put_skips(text: &mut Bytes, alloc: Global, skips: &[Skip]) -> Result<(), NoMemory>
    ensures { OnOk result (text.new ≡ text.old ++ flat_map skip_text skips.now) }
{
    for skip in skips {
        put_skip(text, alloc, *skip)?;
    }
    Ok(())
}

/// Adds how many more are skipped than have a line.
fn put_more(text: &mut Bytes, alloc: Global, n: u64) -> Result<(), NoMemory>
    ensures { OnOk result (text.new ≡ text.old ++ more_text n) }
{
    if n == 0 {
        return Ok(());
    }
    put_around(text, alloc, b"more skipped files: ", n, b"\n")
}

/// Adds what becomes of so many skipped files.
fn put_stay(text: &mut Bytes, n: u32) -> Result<(), NoMemory>
    ensures { OnOk result (text.new ≡ text.old ++ stay_text n) }
{
    if n == 0 {
        return Ok(());
    }
    put_line(
        text,
        b"skipped files stay until the next CHECK, which removes those below UIDNEXT",
    )
}

/// Adds what is told of so many skipped files, of which these have lines.
fn put_skipped(text: &mut Bytes, alloc: Global, n: u32, skips: &[Skip]) -> Result<(), NoMemory>
    ensures { OnOk result (text.new ≡ text.old ++ skipped_text n skips.now) }
{
    put_skips(text, alloc, skips)?;
    put_more(text, alloc, u64::from(n).saturating_sub(skips.len() as u64))?;
    put_stay(text, n)
}

/// Adds that the cache file stays, where there is one.
fn put_cache(text: &mut Bytes, has_cache: bool) -> Result<(), NoMemory>
    ensures { OnOk result (text.new ≡ text.old ++ cache_text has_cache) }
{
    put_line_when(
        text,
        has_cache,
        b"dovecot.index.cache: neither read nor changed",
    )
}

/// Adds what a rebuild found.
fn put_report(text: &mut Bytes, alloc: Global, rebuilt: &Rebuilt) -> Result<(), NoMemory>
    ensures { OnOk result (text.new ≡ text.old ++ report_text rebuilt.now) }
{
    let report = &rebuilt.report;
    put_remains(text, alloc, &report.remains)?;
    put_skipped(text, alloc, rebuilt.skipped, report.skips.as_slice())?;
    put_cache(text, report.has_cache)
}

/// What a rebuild found, in lines of plain words.
pub fn report_text(alloc: Global, rebuilt: &Rebuilt) -> Result<Bytes, NoMemory>
    ensures { IfOk result (λ text. text ≡ report_text rebuilt.now) }
{
    let mut text = List::new(alloc);
    put_report(&mut text, alloc, rebuilt)?;
    Ok(text)
}
