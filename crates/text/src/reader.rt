// Setup files, line by line.
ghost use Rattle.std.specs.Prelude.{◌≡◌};
ghost use Rattle.text.specs.Setups.{setup_in, setup_or_fault};

use crate::draft::Draft;
use crate::fault::Fault;
use crate::setup::Setup;
use crate::words::first_line;

// What a setup file describes, or its first fault.
#[tactic(auto, unfolding(crate::specs::Setups::setup_in, crate::specs::Setups::follow, crate::specs::Words::lines))]
pub fn read_setup(bytes: &[u8]) -> Result<Setup, Fault>
    ensures { setup_in bytes.now ≡ setup_or_fault result }
{
    let mut draft = Draft::new();
    let mut rest = bytes;
    // No `split` at line feeds: it would begin one more line behind the last of them.
    while !rest.is_empty() {
        let (text, behind) = first_line(rest);
        draft.put_line(text).map_err(|what| draft.fault(what))?;
        rest = behind;
    }
    draft.finish()
}
