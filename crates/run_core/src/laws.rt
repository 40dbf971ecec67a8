//! Laws, each as the contract of a function that does nothing.
ghost use Rattle.run_core.specs.Prompts.{PromptLaw};
ghost use Rattle.run_core.specs.ReadSteps.{StepLaw};

/// The line `NODE VERB ..` that `put_act` of `report_core` prints of a step is read as the same step of the same node,
/// wherever the line stands behind the `nodes` line of a script with the same nodes. This is true of each step that a
/// script can hold: the nodes in the step are nodes of the script, and an extract names at least one.
pub fn step_law()
    ensures { StepLaw }
{}

/// The lines of a script without faults, taken one by one at a prompt, print the script's report byte for byte. They
/// leave the machine that a play of the script leaves.
pub fn prompt_law()
    ensures { PromptLaw }
{}
