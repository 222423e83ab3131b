//! Reloads: an image is opened in place of the core that runs.

ghost use Rattle.std.specs.Prelude.{◌≡◌, ◌≢◌, ◌≤◌, ◌<◌, ℕ, List, Some, IfOk, IfErr, OnOk};
ghost use Rattle.ifs_base.specs.FaultTexts.{fault_words};
ghost use Rattle.ifs_verify.specs.Refused.{AreNotAccepted, IsRefusal};
ghost use Rattle.ifs_host.specs.Reloads.{IsTakenOver, IsReloadRefusal, reload_words};
ghost use Rattle.ifs_host.specs.declared.reloading.ReloadFault.TheVariants.{File, Image, TooMany};
ghost use Rattle.ifs_verify.specs.declared.fault.VerifyFault.TheVariants.{OutOfMemory};

use crate::files::{FileFault, read_regular_file};
use bumpalo::Bump;
use ifs_base::{FaultPlace, FaultText};
use ifs_core::{CarryCause, CarryFault, Core};
use ifs_verify::{VerifyFault, verify};
use std::alloc::{AllocError, Global};
use std::fmt::{self, Display, Formatter, Write};
use std::rt::Files;

/// The most reloads of one run. Each image is kept to the end, since the core's texts and code are borrowed from it.
pub const RELOADS: u32 = 64;

/// Why a reload is refused.
#[derive(Clone, Copy, Debug, PartialEq, Eq)]
pub enum ReloadFault {
    /// L2: the file cannot be read, or is too large.
    File,
    /// L3: there were 64 reloads already.
    TooMany,
    /// The verifier rejects the bytes, or an allocation for them failed: the fault of the verifier.
    Image(VerifyFault),
    /// L0 and L1: the core cannot carry what it knows.
    Carry(CarryCause),
}

impl ReloadFault {
    /// The words of the fault.
    pub fn text(self) -> FaultText
        ensures { fault_words result ≡ reload_words self }
    {
        let code = match self {
            ReloadFault::File => "L2",
            ReloadFault::TooMany => "L3",
            ReloadFault::Image(fault) => return fault.text(),
            ReloadFault::Carry(CarryCause::Memory) => "L0",
            ReloadFault::Carry(CarryCause::Queued) => "L1",
        };
        FaultText {
            code,
            place: FaultPlace::Nowhere,
        }
    }
}

impl Display for ReloadFault {
    ghost output = { λ fault. Some (reload_words fault) };

    fn fmt<W: Write>(&self, f: &mut Formatter<W>) -> fmt::Result {
        write!(f, "{}", self.text())
    }
}

/// A core that is unchanged, and why the reload is refused.
#[derive(Drop)]
pub struct ReloadRefused<'a> {
    pub core: Core<'a>,
    pub fault: ReloadFault,
}

/// What a reload read of the image's file.
#[derive(Drop)]
pub enum FileRead {
    /// Nothing: it did not ask for the file.
    Skipped,
    /// Nothing: the file has this fault.
    Fault(FileFault),
    /// The file's bytes.
    Bytes(Vec<u8>),
}

/// A core that is unchanged, why the reload of a file is refused, and what was read of the file.
#[derive(Drop)]
pub struct FileRefused<'a> {
    pub core: Core<'a>,
    pub fault: ReloadFault,
    pub read: FileRead,
}

/// Reads an image again, and opens it in place of a core. L3 if there were 64 reloads already, which comes before any fault
/// of the file. L2 if the file is not regular, cannot be read, or is too large. Other refusals are those of `take_over`.
pub fn reload<'m, R: Files + Alloc<A = Global>>(
    rt: &R,
    images: &'m Bump,
    path: &str,
    reloads: u32,
    core: Core<'m>,
) -> Result<Core<'m>, FileRefused<'m>>
    // The core of some bytes is opened, as `take_over` says.
    ensures taken_over { IfOk result (λ next. (bytes : List ℕ) × IsTakenOver core.entry bytes next) }
    ensures few { OnOk result (reloads < 64) }
    ensures back { IfErr result (λ refused. refused.core ≡ core.entry) }
    // L3 comes exactly if there were 64 reloads.
    ensures too_many { IfErr result (λ refused. 64 ≤ reloads → refused.fault ≡ TooMany) }
    ensures not_too_many { IfErr result (λ refused. refused.fault ≡ TooMany → 64 ≤ reloads) }
    // Any other fault but L2 is that of some bytes.
    ensures refused { IfErr result (λ refused. refused.fault ≢ TooMany → refused.fault ≢ File → (bytes : List ℕ) × IsReloadRefusal core.entry bytes refused.fault) }
{
    if reloads >= RELOADS {
        return Err(FileRefused {
            core,
            fault: ReloadFault::TooMany,
            read: FileRead::Skipped,
        });
    }
    match read_regular_file(rt, path) {
        Ok(bytes) => match take_over(rt.alloc(), images, bytes.as_slice(), core) {
            Ok(next) => Ok(next),
            Err(ReloadRefused { core, fault }) => Err(FileRefused {
                core,
                fault,
                read: FileRead::Bytes(bytes),
            }),
        },
        Err(cause) => Err(FileRefused {
            core,
            fault: fault_of(&cause),
            read: FileRead::Fault(cause),
        }),
    }
}

/// The fault of a reload whose file cannot be read: V0 if memory ran out, else L2.
fn fault_of(cause: &FileFault) -> ReloadFault
    ensures not_too_many { result ≢ TooMany }
    ensures refused { result ≢ File → result ≡ Image OutOfMemory }
{
    match cause {
        FileFault::Memory => ReloadFault::Image(VerifyFault::OutOfMemory),
        FileFault::System(_) | FileFault::TooLarge | FileFault::NotRegular => ReloadFault::File,
    }
}

/// Opens the image of these bytes in place of a core, with what that core carries. Bytes that are accepted are kept among
/// the images, and others are not.
///
/// The refusal is the fault of the verifier if it rejects the bytes, V0 if an allocation for them fails, and L1 or L0 if the
/// core cannot carry what it knows. The core is unchanged then.
pub fn take_over<'m>(
    alloc: Global,
    images: &'m Bump,
    bytes: &[u8],
    core: Core<'m>,
) -> Result<Core<'m>, ReloadRefused<'m>>
    ensures taken_over { IfOk result (λ next. IsTakenOver core.entry bytes.now next) }
    ensures back { IfErr result (λ refused. refused.core ≡ core.entry) }
    ensures refused { IfErr result (λ refused. IsReloadRefusal core.entry bytes.now refused.fault) }
{
    match store_image(alloc, images, bytes) {
        Ok(image) => open_in_place(alloc, image, core),
        Err(fault) => Err(ReloadRefused {
            core,
            fault: ReloadFault::Image(fault),
        }),
    }
}

/// Stores bytes among the images, if they are accepted.
fn store_image<'m>(alloc: Global, images: &'m Bump, bytes: &[u8]) -> Result<&'m [u8], VerifyFault>
    ensures kept { IfOk result (λ image. image.now ≡ bytes.now) }
    ensures not_accepted { IfErr result (AreNotAccepted bytes.now) }
    ensures refused { IfErr result (IsRefusal bytes.now) }
{
    verify(alloc, bytes)?;
    match images.try_alloc_slice_copy(bytes) {
        Ok(image) => Ok(image),
        Err(AllocError) => Err(VerifyFault::OutOfMemory),
    }
}

/// Opens an image in place of a core.
fn open_in_place<'m>(
    alloc: Global,
    image: &'m [u8],
    core: Core<'m>,
) -> Result<Core<'m>, ReloadRefused<'m>>
    ensures taken_over { IfOk result (λ next. IsTakenOver core.entry image.now next) }
    ensures back { IfErr result (λ refused. refused.core ≡ core.entry) }
    ensures refused { IfErr result (λ refused. IsReloadRefusal core.entry image.now refused.fault) }
{
    let next = match verify(alloc, image) {
        Ok(next) => next,
        Err(fault) => {
            return Err(ReloadRefused {
                core,
                fault: ReloadFault::Image(fault),
            });
        }
    };
    match core.carry(alloc) {
        Ok(carried) => Ok(Core::open_with(next, carried)),
        Err(CarryFault { core, cause }) => Err(ReloadRefused {
            core,
            fault: ReloadFault::Carry(cause),
        }),
    }
}
