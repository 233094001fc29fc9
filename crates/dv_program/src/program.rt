//! What the program's words ask for.

ghost use Rattle.std.specs.Prelude.{◌≡◌, ◌⊎◌, ◌≤◌, [], IfErr, IfOk, MatchBool, None, Ok, false, map, string_bytes};
ghost use Rattle.dv_model.specs.Counts.{Rose};
ghost use Rattle.dv_notices.specs.declared.telling.Told.TheVariants as telling;
ghost use Rattle.dv_cli.specs.Running.{memory_text, usage_text};
ghost use Rattle.dv_cli.specs.Words.{Prints};
ghost use Rattle.dv_program.specs.Forms.{task_by};
ghost use Rattle.dv_program.specs.Obeying.{IsMemory, Obeys, SaysOf, Tells, TellsErrors};
ghost use Rattle.dv_program.specs.Words.{asks_for, folder_word, layout_for, missing_for, run_words};
ghost use Rattle.dv_folder.specs.Paths.{layout_of, missing_of, path_of};
ghost use Rattle.dv_folder.specs.Ways.{folder_path};

use crate::top_call::run;
use dv_cli::{End, Ran, conclude, write_text};
use dv_folder::{Folder, Input, Layout, Missing, SystemClock};
use dv_model::NoMemory;
use dv_notices::{Told, told_text};
use dv_shelf::{OpenGate, Sink};
use std::alloc::{AllocError, Global};
use std::env;
use std::io::ErrorKind;
use std::sync::Wait;
use std::thread::Threads;

/// The word that asks for the text on the program, in the place of the folder.
const HELP_WORD: &str = "--help";

/// The word that asks for the program's version, in the place of the folder.
const VERSION_WORD: &str = "--version";

const VERSION: &[u8] = b"sdbox 0.1.0\n";

const USAGE: &[u8] = b"usage: sdbox FOLDER run < SCRIPT
       sdbox FOLDER run --threads < SCRIPT
       sdbox FOLDER pop3 < LINES
       sdbox FOLDER watch KEY < SCRIPT
       sdbox FOLDER rebuild
       sdbox FOLDER gen SEED COUNT SESSIONS
       sdbox FOLDER resync VALIDITY MODSEQ SET
       sdbox FOLDER mdbox < SCRIPT
";

const HELP: &[u8] = b"usage: sdbox FOLDER run < SCRIPT
       sdbox FOLDER run --threads < SCRIPT
       sdbox FOLDER pop3 < LINES
       sdbox FOLDER watch KEY < SCRIPT
       sdbox FOLDER rebuild
       sdbox FOLDER gen SEED COUNT SESSIONS
       sdbox FOLDER resync VALIDITY MODSEQ SET
       sdbox FOLDER mdbox < SCRIPT

run keeps a mailbox in FOLDER and answers the commands of the script. Where FOLDER has no mailbox
one is made. A line of the script is a session's name, of 1 to 16 small letters and digits, a space
and a command, in capitals; at most 64 sessions take part. Empty lines and lines that begin with #
are passed over.

  SELECT                     shows the mailbox; each session's first command
  NOOP                       tells what has changed
  APPEND (FLAGS) {N}         adds a message: N bytes, which follow the line
  FETCH SET (ITEMS)          ITEMS: FLAGS, RFC822.SIZE, BODY[], FIELD NAME, MODSEQ
  STORE SET +FLAGS (FLAGS)   adds flags; -FLAGS takes them away, FLAGS sets them; before it may
                             stand (UNCHANGEDSINCE N)
  SEARCH KEYS                KEYS: ALL, SEEN and UNSEEN and so on, KEYWORD NAME, UID SET, LARGER N,
                             HEADER NAME \"TEXT\", NOT KEY, OR KEY KEY, (KEYS)
  EXPUNGE                    removes the messages with \\Deleted
  CHECK                      writes a snapshot, and removes files of messages that are gone
  UID FETCH, UID STORE, UID SEARCH, UID REMOVE SET
                             go by UIDs

SET is numbers, * and ranges with commas between, as 1,3:5,7:*. FLAGS are \\Answered, \\Flagged,
\\Deleted, \\Seen, \\Draft and keywords.

run --threads answers the commands of each session in a thread of its own, all in one mailbox. The
replies stay in memory and are written once all sessions have ended, session by session: large
FETCHes belong to run.

pop3 answers POP3 lines (RFC 1939) of one session in FOLDER's mailbox, up to the first QUIT: STAT,
LIST, UIDL, RETR, DELE, NOOP, RSET and QUIT, in capitals. Numbers and sizes stay as they were when
it began. QUIT removes the messages that DELE marked; without it none is removed. There is neither
USER nor PASS nor TOP, and the mailbox isn't locked.

watch answers a script as run does, of at most 63 sessions, and keeps a search beside it: behind the
replies to each command that wrote a group a line WATCH has the UIDs of the messages that then meet
KEY. KEY is one of the KEYS above, in one word of the command line; LARGER, HEADER and * may not
stand in it.

rebuild gives a damaged FOLDER, or one that a Dovecot server made, a new log: every message whose
file u.N is whole is kept, with the flags and keywords that are left in log and snapshot. There is
no way back, so copy the folder first.

gen answers COUNT generated commands, at most 1000000, of up to 64 SESSIONS, the same ones for each
SEED, and prints no replies. It is for measuring: never use it on a folder with mail.

resync tells what a client hears that knows an older state of FOLDER's mailbox: its UIDVALIDITY, its
highest modification sequence, and the UIDs of its messages as a SET. It changes no message.

mdbox keeps messages many to a file in FOLDER, each with a count of its references, and answers the
lines of the script. Where FOLDER has no such storage one is made. It isn't for a folder of run, nor
for one that a Dovecot server made.

  SAVE {N}                   saves a message, of N bytes, which follow the line: OK and its id
  COPY ID                    adds a reference to a message
  DROP ID                    drops one
  GET ID                     gives the message: OK {N}, and its bytes
  PURGE                      removes the messages without a reference, and says how many

The last line of the output says how the run ended, and the exit status says it too:

  0  every line was answered, or the client, or the folder was rebuilt
  1  the words are none of these
  2  the folder couldn't be opened, made, rebuilt or locked
  3  the folder's mailbox or storage is damaged, or isn't of this program
  4  memory ran out
  5  the script is no script
  6  the script couldn't be read
  7  the output couldn't be written

  --help     prints this text
  --version  prints the version
";

/// The program's words behind its own name, by what was read of them: a word that is no text makes
/// them none, and want of memory is told.
fn words_read(
    alloc: Global,
    read: Result<Result<Vec<String>, AllocError>, ErrorKind>,
) -> Result<Vec<String>, NoMemory>
    ensures texts { IfOk read (λ got. IfOk got (λ words. result ≡ Ok words)) }
    ensures lacking { IfOk read (λ got. IfErr got (λ e. IsMemory result)) }
    ensures memory { IfErr read (λ kind. kind ≡ ErrorKind.OutOfMemory → IsMemory result) }
    ensures no_text { IfErr read (λ kind. (kind ≡ ErrorKind.OutOfMemory → ⊥) →
        IfOk result (λ words. words.items ≡ []) × IfErr result (λ e. ⊥)) }
{
    match read {
        Ok(Ok(words)) => Ok(words),
        Ok(Err(_)) | Err(ErrorKind::OutOfMemory) => Err(NoMemory),
        Err(_) => Ok(Vec::new(alloc)),
    }
}

/// The program's words behind its own name, or why they can't be read.
pub fn words_given(rt: HostRuntime) -> Result<Result<Vec<String>, AllocError>, ErrorKind> {
    match env::args(&rt) {
        Ok(words) => Ok(words.skip(1).collect(rt.alloc())),
        Err(e) => Err(e.kind()),
    }
}

/// Whether the first word is this one.
fn asks(words: &[String], word: &str) -> bool
    ensures { result ≡ asks_for word.now (map string_bytes words.now) }
{
    match words {
        [first, ..] => first.as_str() == word,
        [] => false,
    }
}

/// What is done about a folder that is missing, by the words behind it: a rebuild makes none.
fn missing_for(words: &[String]) -> Missing
    ensures { result ≡ missing_for (task_by (map string_bytes words.now)) }
{
    match words {
        [word] if word.as_str() == "rebuild" => Missing::Refuse,
        _ => Missing::Make,
    }
}

/// How the files of the folder are named, by the words behind it.
fn layout_for(words: &[String]) -> Layout
    ensures { result ≡ layout_for (task_by (map string_bytes words.now)) }
{
    match words {
        [word] if word.as_str() == "mdbox" => Layout::Storage,
        _ => Layout::Mailbox,
    }
}

/// The folder that the first word names, of a mailbox or of a storage, which is made where it is
/// missing, or not.
fn folder_named(rt: HostRuntime, words: &[String]) -> Result<Folder, NoMemory>
    ensures path { IfOk result (λ shelf. path_of shelf
        ≡ folder_path (layout_for (task_by (run_words (map string_bytes words.now))))
        (folder_word (map string_bytes words.now))) }
    ensures layout { IfOk result (λ shelf. layout_of shelf
        ≡ layout_for (task_by (run_words (map string_bytes words.now)))) }
    ensures missing { IfOk result (λ shelf. missing_of shelf
        ≡ missing_for (task_by (run_words (map string_bytes words.now)))) }
{
    let path = match words {
        [path, ..] => path.as_str(),
        [] => "",
    };
    let behind = words_behind(words);
    Folder::new(
        rt.alloc(),
        rt,
        path,
        layout_for(behind),
        missing_for(behind),
    )
}

/// The words behind the folder's.
fn words_behind(words: &[String]) -> &[String]
    ensures { map string_bytes result.now ≡ run_words (map string_bytes words.now) }
{
    match words {
        [_, behind @ ..] => behind,
        [] => words,
    }
}

/// Writes a text to standard error. A failure there has no other place to be told.
fn write_told<E: Sink>(errors: &mut E, text: &[u8])
    ensures { E.sees.tells → Tells text.now (E.sees.taken errors.old) (E.sees.taken errors.new)
        (E.sees.fault_count errors.old) (E.sees.fault_count errors.new) }
{
    match errors.write_all(text) {
        Ok(()) | Err(_) => {}
    }
}

/// Whether nothing is told.
fn is_nothing(told: &Told) -> bool
    ensures { MatchBool result (told.now ≡ telling.Nothing) (told.now ≡ telling.Nothing → ⊥) }
{
    match told {
        Told::Nothing => true,
        Told::BadLine(_) | Told::Rebuilt(_) => false,
    }
}

/// Tells how the program is used, at status 1, and what a run tells beside its output; of that
/// nothing where memory lacks.
fn tell<E: Sink>(alloc: Global, errors: &mut E, status: u8, told: &Told)
    ensures told { E.sees.tells → SaysOf told.now status (E.sees.taken errors.old)
        (E.sees.taken errors.new) (E.sees.fault_count errors.old) (E.sees.fault_count errors.new) }
    ensures quiet { (status ≡ 1 → ⊥) → told.now ≡ telling.Nothing → errors.new ≡ errors.old }
{
    if status == 1 {
        return write_told(errors, USAGE);
    }
    if is_nothing(told) {
        return;
    }
    match told_text(alloc, told) {
        Ok(text) => write_told(errors, text.as_slice()),
        Err(_) => {}
    }
}

/// Serves a folder by these words, and gives the exit status. Words that aren't those of a run
/// are answered on standard error too, unless memory runs out before they are known for that.
fn serve<O: Sink, E: Sink, R: Threads + Wait + Sync>(
    rt: HostRuntime,
    threads: &R,
    out: &mut O,
    errors: &mut E,
    shelf: Folder,
    words: &[String],
) -> u8
    ensures usage { task_by (map string_bytes words.now) ≡ None →
        (result ≡ 1) ⊎ (result ≡ 4) ⊎ (result ≡ 7) }
    ensures usage_output { task_by (map string_bytes words.now) ≡ None → O.sees.tells →
        Prints 1 usage_text result (O.sees.taken out.old) (O.sees.taken out.new)
        ⊎ Prints 4 memory_text result (O.sees.taken out.old) (O.sees.taken out.new) }
    ensures usage_only { result ≡ 1 → task_by (map string_bytes words.now) ≡ None }
    ensures sink { result ≡ 7 → Rose (O.sees.fault_count out.old) (O.sees.fault_count out.new) }
    ensures small { result ≤ 7 }
    // Standard error takes the usage text at status 1, and else what the run tells.
    ensures told { TellsErrors E.sees (task_by (map string_bytes words.now)) result
        errors.old errors.new }
{
    let mut script = Input::new(rt);
    let clock = SystemClock::new(rt);
    let Ran {
        status,
        told,
        shelf: _shelf,
        clock: _clock,
    } = run(
        threads,
        rt.alloc(),
        words,
        shelf,
        &mut script,
        out,
        clock,
        &OpenGate,
    );
    tell(rt.alloc(), errors, status, &told);
    status
}

/// Does what the program's words ask for, and gives the exit status, which is that of the run
/// where they aren't `--help` or `--version`. The first word is the folder's path; where there is
/// none, there are no words behind it either.
fn obey<O: Sink, E: Sink, R: Threads + Wait + Sync>(
    rt: HostRuntime,
    threads: &R,
    out: &mut O,
    errors: &mut E,
    words: &[String],
) -> u8
    ensures obeys { Obeys (map string_bytes words.now) result O.sees.tells (O.sees.taken out.old)
        (O.sees.taken out.new) (O.sees.fault_count out.old) (O.sees.fault_count out.new) }
    // Standard error takes the usage text at status 1, and else what the run tells.
    ensures told { TellsErrors E.sees (task_by (run_words (map string_bytes words.now))) result
        errors.old errors.new }
{
    if asks(words, HELP_WORD) {
        return write_text(out, HELP, 0);
    }
    if asks(words, VERSION_WORD) {
        return write_text(out, VERSION, 0);
    }
    let behind = words_behind(words);
    match folder_named(rt, words) {
        Ok(shelf) => serve(rt, threads, out, errors, shelf, behind),
        Err(_) => conclude(rt.alloc(), out, &End::NoMemory),
    }
}

/// Does what the words ask for that were read, and gives the exit status: that of want of memory
/// where the words couldn't be read for it. Words of which one is no text are none.
pub fn obey_read<O: Sink, E: Sink, R: Threads + Wait + Sync>(
    rt: HostRuntime,
    threads: &R,
    out: &mut O,
    errors: &mut E,
    read: Result<Result<Vec<String>, AllocError>, ErrorKind>,
) -> u8
    ensures texts { IfOk read (λ got. IfOk got (λ words. Obeys (map string_bytes words.items)
        result O.sees.tells (O.sees.taken out.old) (O.sees.taken out.new)
        (O.sees.fault_count out.old)
        (O.sees.fault_count out.new))) }
    ensures no_text { IfErr read (λ kind. (kind ≡ ErrorKind.OutOfMemory → ⊥) → Obeys [] result
        O.sees.tells (O.sees.taken out.old) (O.sees.taken out.new) (O.sees.fault_count out.old)
        (O.sees.fault_count out.new)) }
    // Want of memory is told as such, and nothing beside it.
    ensures lacking { IfOk read (λ got. IfErr got (λ e.
        ((result ≡ 4) ⊎ (result ≡ 7)) × (errors.new ≡ errors.old))) }
    ensures memory { IfErr read (λ kind. kind ≡ ErrorKind.OutOfMemory →
        ((result ≡ 4) ⊎ (result ≡ 7)) × (errors.new ≡ errors.old)) }
    // Standard error takes the usage text at status 1, and else what the run tells.
    ensures told { IfOk read (λ got. IfOk got (λ words. TellsErrors E.sees
        (task_by (run_words (map string_bytes words.items))) result errors.old errors.new)) }
    ensures told_none { IfErr read (λ kind. (kind ≡ ErrorKind.OutOfMemory → ⊥) →
        TellsErrors E.sees None result errors.old errors.new) }
{
    match words_read(rt.alloc(), read) {
        Ok(words) => obey(rt, threads, out, errors, words.as_slice()),
        Err(_) => conclude(rt.alloc(), out, &End::NoMemory),
    }
}
