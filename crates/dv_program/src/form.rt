//! In which form a run does what its words ask for.

ghost use Rattle.std.specs.Prelude.{◌≡◌, map, string_bytes};
ghost use Rattle.dv_program.specs.Forms.{form_of};

/// How a run goes.
#[derive(Clone, Copy)]
pub enum Form {
    /// One thing is done after another.
    Serial,
    /// The sessions of a script are served in threads.
    Threads,
    /// A script is given to a POP3 session.
    Pop3,
}

/// The form that the words ask for.
pub fn form_of(words: &[String]) -> Form
    ensures { result ≡ form_of (map string_bytes words.now) }
{
    match words {
        [word, flag] if word.as_str() == "run" && flag.as_str() == "--threads" => Form::Threads,
        [word] if word.as_str() == "pop3" => Form::Pop3,
        _ => Form::Serial,
    }
}
