//! The bytes of a script, read once from the front.
ghost use Rattle.std.specs.Prelude.{◌≡◌, ◌≢◌, ◌≤◌, ◌+◌, ◌⊎◌, length, IfOk, IfErr, OnOk, Err};
ghost use Rattle.xh_script.specs.Config.{IsScriptConfig};
ghost use Rattle.xh_script.specs.declared.limits.TheConstants.{MAX_SCRIPT};
ghost use Rattle.xh_script.specs.Scripts.{listing_of};
ghost use Rattle.xh_script.specs.Watching.{failures};
ghost use Rattle.xh_session.specs.Reading.{GivesScript, ReadsAtMost, ReadsScript, Unread};

use std::alloc::Global;
use std::io::Read;
use xh_core::Config;
use xh_script::limits::{MAX_SCRIPT, is_in_script_limits};
use xh_script::{Fault, Script, Watched, read_script};

/// A whole script, and the text that says it.
#[derive(Drop)]
pub struct Input {
    pub text: Vec<u8>,
    pub script: Script,
}

/// Reads to the end, or to one byte past the most that a script may have.
fn read_text<R: Read>(alloc: Global, reader: &mut Watched<R>) -> Result<Vec<u8>, Fault>
    ensures ok { IfOk result (λ text. ReadsScript R.remaining reader.old reader.new text.items × (length text.items ≤ MAX_SCRIPT + 1)) }
    ensures err { IfErr result (λ e. (e ≡ Fault.Memory) ⊎ ((e ≡ Fault.Read) × (failures reader.new ≢ failures reader.old))) }
    ensures limit { ReadsAtMost R.remaining (MAX_SCRIPT + 1) reader.old reader.new }
{
    let mut text = Vec::new(alloc);
    let mut room = [0u8; 4096];
    while text.len() <= MAX_SCRIPT {
        let most = (MAX_SCRIPT + 1 - text.len()).min(4096);
        match reader.read(&mut room[..most]) {
            None => return Err(Fault::Read),
            Some(0) => return Ok(text),
            Some(n) => text.extend_from_slice(&room[..n])?,
        }
    }
    Ok(text)
}

/// Reads the script that a reader gives to its end, for a run with a config.
///
/// A config outside its limits is BadConfig, and nothing is read. The reader is asked for at most
/// one byte more than a script may have, so a reader without an end is TooLong. Memory comes where a growth was refused.
#[tactic(auto, unfolding(xh_script::specs::Scripts::script_of))]
pub fn read_input<R: Read>(
    alloc: Global,
    config: Config,
    reader: &mut Watched<R>,
) -> Result<Input, Fault>
    ensures ok { IfOk result (λ input. GivesScript R.remaining reader.old reader.new input.text.items (listing_of input.script)) }
    ensures within { OnOk result (IsScriptConfig config) }
    ensures err { IfErr result (Unread R.remaining config reader.old reader.new) }
    ensures config { ¬ IsScriptConfig config → result ≡ Err Fault.BadConfig }
    ensures limit { ReadsAtMost R.remaining (MAX_SCRIPT + 1) reader.old reader.new }
{
    if !is_in_script_limits(&config) {
        return Err(Fault::BadConfig);
    }
    let text = read_text(alloc, reader)?;
    let script = read_script(alloc, &text)?;
    Ok(Input { text, script })
}
