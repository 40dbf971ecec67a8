//! Laws, each as the contract of a function that does nothing.
ghost use Rattle.transcript_core.specs.Laws.{ScriptLaw};
ghost use Rattle.transcript_core.specs.Runs.{RunLaw};

/// The script of a bench's calls is read as these calls, if nodes and consoles have names that a script can have, there
/// are at most 16 consoles, each call is one that a line can ask for, and the script isn't longer than a script may be.
pub fn script_law()
    ensures { ScriptLaw }
{}

/// The script of a run, without an indent, is read as the nodes and steps of the run, if nodes have names that a script
/// can have, each step is one that a line of one of these nodes can ask for, and the script isn't longer than a script
/// may be.
pub fn run_law()
    ensures { RunLaw }
{}
