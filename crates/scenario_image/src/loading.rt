//! Reading an image of a scenario, of either version.
ghost use Rattle.std.specs.Prelude.{◌≡◌, ◌⊎◌, ◌↔◌, ◌≤◌, length, IsTrue, IfOk, IfErr, IsErrOf};
ghost use Rattle.scenario_image.specs.Scenario.{IsScenario};
ghost use Rattle.scenario_image.specs.Image.{IsImage};
ghost use Rattle.scenario_image.specs.ImageFault.{HasMagic, IsFirstByteFault};
ghost use Rattle.scenario_image.specs.declared.fault.LoadFault.{LoadFault};
ghost use Rattle.scenario_image.specs.declared.fault.LoadFault.TheVariants.{NoMemory};
ghost use Rattle.scenario_image.specs.declared.parts.ScenarioParts.{ScenarioParts};

use crate::fault::LoadFault;
use crate::layout::has_its_layout;
use crate::limits::is_in_limits;
use crate::reading::parts_of;
use crate::scenario::Scenario;
use byteorder::{BigEndian, ByteOrder};
use std::alloc::Global;

/// The four bytes `TCB1`, as a number.
const FIRST_MAGIC: u32 = 0x5443_4231;

/// The four bytes `TCB2`, as a number.
const SECOND_MAGIC: u32 = 0x5443_4232;

/// Whether bytes begin as an image does.
fn has_magic(bytes: &[u8]) -> bool
    requires { 4 ≤ length bytes.now }
    ensures { IsTrue result ↔ HasMagic bytes.now }
{
    let magic = BigEndian::read_u32(bytes);
    magic == FIRST_MAGIC || magic == SECOND_MAGIC
}

/// The scenario of an image, or the first fault of the bytes.
#[tactic(none)]
fn judged(alloc: Global, bytes: &[u8]) -> Result<Scenario, LoadFault>
    ensures ok { IfOk result (IsImage bytes.now) }
    ensures scenario { IfOk result IsScenario }
    ensures fault { IfErr result (λ fault. (fault ≡ NoMemory) ⊎ IsFirstByteFault bytes.now fault) }
{
    if !has_its_layout(bytes) {
        return Err(LoadFault::L1);
    }
    if !has_magic(bytes) {
        return Err(LoadFault::L2);
    }
    let (parts, left_over) = parts_of(alloc, bytes)?;
    // Bytes left over are judged after the numbers and before all else.
    if !is_in_limits(&parts) {
        return Err(LoadFault::L3);
    }
    if !left_over.is_empty() {
        return Err(LoadFault::L4);
    }
    Scenario::of_parts(parts)
}

/// The scenario that bytes are an image of, or the first fault that they have.
#[tactic(none)]
pub fn load(alloc: Global, bytes: &[u8]) -> Result<Scenario, LoadFault>
    // What is loaded has these bytes as an image.
    ensures ok { IfOk result (IsImage bytes.now) }
    // The scenario with this image, of either version, is loaded, unless memory runs out.
    ensures only { (parts : ScenarioParts) → IsScenario parts → IsImage bytes.now parts → IfOk result (λ scenario. scenario ≡ parts) × IfErr result (λ fault. fault ≡ NoMemory) }
    // A fault is the first that the bytes have.
    ensures fault { IfErr result (λ fault. (fault ≡ NoMemory) ⊎ IsFirstByteFault bytes.now fault) }
    // Bytes with a fault are refused for it, unless memory runs out.
    ensures only_fault { (fault : LoadFault) → IsFirstByteFault bytes.now fault → IsErrOf result fault ⊎ IsErrOf result NoMemory }
{
    judged(alloc, bytes)
}
