ghost use Rattle.std.specs.Prelude.{◌≡◌, List, Ok};
ghost use Rattle.dv_formats.specs.Parsing.{parsed};
ghost use Rattle.dv_formats.specs.Printing.{script_text};
ghost use Rattle.dv_formats.specs.Scripts.{NamedLine};
ghost use Rattle.dv_script.specs.Printed.{ArePrintable};

/// A script that is printed is parsed as the same lines, where each has a text and all are within
/// the limits of a script: of its bytes, its lines and its sessions.
pub fn printed_script_is_parsed()
    ensures { (lines : List NamedLine) → ArePrintable lines
        → parsed (script_text lines) ≡ Ok lines }
{}
