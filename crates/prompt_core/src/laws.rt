//! A law, as the contract of a function that does nothing.
ghost use Rattle.prompt_core.specs.Ends.{ReportLaw};

use run_core::laws::prompt_law;

/// What a prompt prints for a script without faults is the script's report, byte for byte.
pub fn report_law()
    ensures { ReportLaw }
{
    // form: hands out what the proof cites
    prompt_law();
}
