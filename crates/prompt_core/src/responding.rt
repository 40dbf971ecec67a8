//! The response to a line.
ghost use Rattle.std.specs.Prelude.{◌≡◌, IfOk, OnOk};
ghost use Rattle.prompt_core.specs.Responses.{response};

use crate::own::put_own;
use crate::setting::PromptSetting;
use dots_core::Oom;
use grammar_core::{FaultKind, ScriptFault};
use run_core::Prompt;
use std::alloc::Allocator;

/// Takes a line at the prompt, and gives what is to be printed: what a script's line prints, what a line of the
/// prompt's own asks for, or the line's fault. Only a script's line changes the prompt: one without a fault, or perhaps
/// one for which memory was refused. `number` is the number of the line.
#[tactic(auto, unfolding(crate::specs::Responses::response))]
pub fn respond<'a, B: Allocator>(
    prompt: &mut Prompt<'a, B>,
    setting: &PromptSetting<'a, '_, B>,
    number: u64,
    line: &[u8],
) -> Result<Vec<u8, &'a B>, Oom>
    ensures prompt { OnOk result (prompt.new ≡ (response setting.now.help.now prompt.old number line.now).0) }
    ensures text { IfOk result (λ text. text.items ≡ (response setting.now.help.now prompt.old number line.now).1) }
{
    let mut text = String::new(setting.alloc);
    match prompt.take(&mut text, line) {
        Ok(()) => Ok(text.into_bytes()),
        Err(FaultKind::OutOfMemory) => Err(Oom),
        Err(kind) => {
            let mut response = Vec::new(setting.alloc);
            let fault = ScriptFault { line: number, kind };
            put_own(prompt, setting, &mut response, fault, line)?;
            Ok(response)
        }
    }
}
