//! What holds of a storage behind any calls, and what its scripts are.

ghost use Rattle.std.specs.Prelude.{◌≡◌, ℕ, List, Result, Ok, Err};
ghost use Rattle.dv_formats.specs.Parsing.{ScriptFault};
ghost use Rattle.dv_mdbox_lines.specs.Grammar.{IsFault, IsOf, IsScript};
ghost use Rattle.dv_mdbox_lines.specs.Laws.{CountsAreTrue, IdsAreNew, MessagesAreKept};
ghost use Rattle.dv_mdbox_lines.specs.Scripts.{Call, parsed};

/// From a new folder, behind any calls, each id has the references that were made less those that
/// were dropped. Nothing is computed.
pub fn counts_are_true()
    ensures { CountsAreTrue }
{}

/// While an id has a reference its message is got as it was saved, whatever was called since, a
/// purge too; unless the disk fails or memory runs out. Nothing is computed.
pub fn messages_are_kept()
    ensures { MessagesAreKept }
{}

/// No id is given again. Nothing is computed.
pub fn ids_are_new()
    ensures { IdsAreNew }
{}

/// A script that is read is one of the grammar, of these calls, and a fault that is told is its
/// first one by the grammar; so nothing else is taken or refused. Nothing is computed.
pub fn read_lines_are_of_the_grammar()
    ensures calls { (script : List ℕ) (calls : List Call) → parsed script ≡ Ok calls
        → IsScript calls script }
    ensures fault { (script : List ℕ) (fault : ScriptFault) → parsed script ≡ Err fault
        → IsFault fault script }
{}

/// Each script of the grammar is read as its calls, and each fault that a text has by the grammar
/// is told. Nothing is computed.
pub fn lines_of_the_grammar_are_read()
    ensures calls { (script : List ℕ) (calls : List Call) → IsScript calls script
        → parsed script ≡ Ok calls }
    ensures fault { (script : List ℕ) (fault : ScriptFault) → IsFault fault script
        → parsed script ≡ Err fault }
{}

/// By the grammar each text is a script of calls or has a fault, and is of one of these alone: so
/// it has a fault exactly where it is of no calls. Nothing is computed.
pub fn each_text_has_one_meaning()
    ensures some { (script : List ℕ) → (read : Result (List Call) ScriptFault) × IsOf read script }
    ensures one { (script : List ℕ) (read other : Result (List Call) ScriptFault)
        → IsOf read script → IsOf other script → read ≡ other }
{}
