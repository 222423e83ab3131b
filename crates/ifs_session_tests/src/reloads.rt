//! Reloads of images, and what is reported if they fail.

use crate::checks::{holds_in, same, same_in};
use bumpalo::Bump;
use ifs_core::{CarryCause, Core};
use ifs_gen::{compile, opened_with};
use ifs_host::files::FileFault;
use ifs_host::reasons::reason_of;
use ifs_host::reloading::{
    FileRead, FileRefused, RELOADS, ReloadFault, ReloadRefused, reload, take_over,
};
use ifs_image::ImageFault;
use ifs_session::{MemoryIn, MemoryOut, simulate, write_refused};
use ifs_test_images::reloads::{other_interfaces, reloads};
use ifs_test_images::{Row, bytes_of};
use ifs_verify::{At, VerifyFault, verify};
use std::alloc::{AllocError, Global};
use std::process::Abort;
use std::rt::Files;
use std::test::Fail;

/// A core on an image.
fn opened<'a>(alloc: Global, image: &'a [u8]) -> Result<Core<'a>, Fail> {
    match Core::open(alloc, verify(alloc, image)?) {
        Ok(core) => Ok(core),
        Err(_) => Err(Fail::from("no core")),
    }
}

/// Asserts the replies to requests.
fn check_replies(
    rt: &impl Abort,
    alloc: Global,
    name: &str,
    core: &mut Core<'_>,
    requests: &str,
    replies: &str,
) -> Result<(), Fail> {
    let mut output = MemoryOut::new(alloc);
    simulate(core, &mut MemoryIn::new(requests.as_bytes()), &mut output)?;
    same_in(rt, name, output.written(), replies.as_bytes());
    Ok(())
}

/// The core after a reload.
fn next<'m>(
    rt: &impl Abort,
    alloc: Global,
    images: &'m Bump,
    bytes: &[u8],
    core: Core<'m>,
) -> Core<'m> {
    match take_over(alloc, images, bytes, core) {
        Ok(next) => next,
        Err(ReloadRefused { core: _, fault }) => panic!(rt; "not taken over: {fault}"),
    }
}

/// Asserts a session on an image, and then one on the image that a reload reads.
fn check_reload(
    rt: &impl Abort,
    alloc: Global,
    images: &Bump,
    before: &Row,
    after: &Row,
) -> Result<(), Fail> {
    let first = bytes_of(alloc, before.image)?;
    let second = bytes_of(alloc, after.image)?;
    let kept = images.try_alloc_slice_copy(first.as_slice())?;
    let mut core = opened(alloc, kept)?;
    check_replies(
        rt,
        alloc,
        before.name,
        &mut core,
        before.requests,
        before.replies,
    )?;
    let mut core = next(rt, alloc, images, second.as_slice(), core);
    check_replies(
        rt,
        alloc,
        after.name,
        &mut core,
        after.requests,
        after.replies,
    )
}

#[test]
fn images_that_take_over(rt: HostRuntime) -> Result<(), Fail> {
    let images = Bump::new(rt.alloc());
    for pair in reloads() {
        check_reload(&rt, rt.alloc(), &images, &pair.before, &pair.after)?;
    }
    Ok(())
}

/// Each policy of these rows compiles to its image.
#[test]
fn policies_that_take_over(rt: HostRuntime) -> Result<(), Fail> {
    for pair in reloads() {
        check_compiled(&rt, rt.alloc(), &pair.before)?;
        check_compiled(&rt, rt.alloc(), &pair.after)?;
    }
    Ok(())
}

fn check_compiled(rt: &impl Abort, alloc: Global, row: &Row) -> Result<(), Fail> {
    let Some(policy) = row.policy else {
        return Ok(());
    };
    let image = compile(alloc, policy, &[])?;
    let wanted = bytes_of(alloc, row.image)?;
    same_in(rt, row.name, image.as_slice(), wanted.as_slice());
    Ok(())
}

/// After a reload the links are known by the names of their interfaces.
#[test]
fn other_interfaces_take_over(rt: HostRuntime) -> Result<(), Fail> {
    let images = Bump::new(rt.alloc());
    let pair = other_interfaces();
    let first = compile(rt.alloc(), pair.before, &[])?;
    let second = compile(rt.alloc(), pair.after, &[])?;
    let kept = images.try_alloc_slice_copy(first.as_slice())?;
    let mut core = opened(rt.alloc(), kept)?;
    told_links(rt.alloc(), &mut core, pair.requests)?;
    let mut core = next(&rt, rt.alloc(), &images, second.as_slice(), core);
    check_replies(
        &rt,
        rt.alloc(),
        "other interfaces",
        &mut core,
        pair.requests_after,
        pair.replies_after,
    )
}

/// Reports links to a core, and ignores the replies.
fn told_links(alloc: Global, core: &mut Core<'_>, requests: &str) -> Result<(), Fail> {
    let mut output = MemoryOut::new(alloc);
    simulate(core, &mut MemoryIn::new(requests.as_bytes()), &mut output)?;
    Ok(())
}

/// A compiled image opens with what another core carried.
#[test]
fn compiled_is_opened_with(rt: HostRuntime) -> Result<(), Fail> {
    let pair = other_interfaces();
    let first = compile(rt.alloc(), pair.before, &[])?;
    let second = compile(rt.alloc(), pair.after, &[])?;
    let mut before = opened(rt.alloc(), first.as_slice())?;
    told_links(rt.alloc(), &mut before, pair.requests)?;
    let verified = verify(rt.alloc(), second.as_slice())?;
    let Ok(carried) = before.carry(rt.alloc()) else {
        return Err(Fail::from("not carried"));
    };
    let mut core = opened_with(verified, carried);
    check_replies(
        &rt,
        rt.alloc(),
        "opened with",
        &mut core,
        pair.requests_after,
        pair.replies_after,
    )
}

/// Asserts why a reload of bytes fails, and that the core is as it was.
fn check_refused<'m>(
    rt: &impl Abort,
    alloc: Global,
    images: &'m Bump,
    core: Core<'m>,
    bytes: &[u8],
    line: &str,
) -> Result<Core<'m>, Fail> {
    match take_over(alloc, images, bytes, core) {
        Ok(_) => Err(Fail::from(line)),
        Err(ReloadRefused { core, fault }) => {
            let told = format!(in alloc; "{fault}")?;
            same(rt, told.as_str(), line);
            same_in(rt, line, core.trace_len(), 1);
            Ok(core)
        }
    }
}

#[test]
fn refused_images(rt: HostRuntime) -> Result<(), Fail> {
    let images = Bump::new(rt.alloc());
    let row = ifs_test_images::reloads::with_a_command();
    let bytes = bytes_of(rt.alloc(), row.image)?;
    let kept = images.try_alloc_slice_copy(bytes.as_slice())?;
    let mut core = opened(rt.alloc(), kept)?;
    check_replies(
        &rt,
        rt.alloc(),
        row.name,
        &mut core,
        row.requests,
        row.replies,
    )?;
    let core = check_refused(&rt, rt.alloc(), &images, core, b"IFSX", "I2 byte 0")?;
    let core = check_refused(&rt, rt.alloc(), &images, core, b"", "I1 byte 0")?;
    // the image is good, and a command waits
    let core = check_refused(&rt, rt.alloc(), &images, core, bytes.as_slice(), "L1")?;
    same(&rt, core.queue_len(), 1);
    Ok(())
}

/// Asserts that a reload runs out of memory, and that the core comes back.
fn check_no_room<'m>(
    rt: &impl Abort,
    alloc: Global,
    images: &'m Bump,
    core: Core<'m>,
    bytes: &[u8],
) -> Result<(), Fail> {
    match take_over(alloc, images, bytes, core) {
        Ok(_) => Err(Fail::from("an image without room")),
        Err(ReloadRefused { core, fault }) => {
            same(rt, fault, ReloadFault::Image(VerifyFault::OutOfMemory));
            same(rt, core.trace_len(), 0);
            Ok(())
        }
    }
}

/// An arena that may allocate nothing takes no image.
#[test]
fn no_room_for_an_image(rt: HostRuntime) -> Result<(), Fail> {
    let images = Bump::new(rt.alloc());
    images.set_allocation_limit(Some(0));
    let bytes = bytes_of(rt.alloc(), ifs_test_images::images::FIRST_RUN)?;
    let core = opened(rt.alloc(), bytes.as_slice())?;
    check_no_room(&rt, rt.alloc(), &images, core, bytes.as_slice())
}

/// Asserts why a reload of a file fails, after `reloads` others.
fn check_file<'m, R: Files + Alloc<A = Global> + Abort>(
    rt: &R,
    images: &'m Bump,
    core: Core<'m>,
    reloads: u32,
    fault: ReloadFault,
) -> Result<Core<'m>, Fail> {
    match reload(rt, images, "/nowhere/image", reloads, core) {
        Ok(_) => Err(Fail::from("a file that is not there")),
        Err(
            FileRefused {
                core,
                fault: told,
                read: _,
            },
        ) => {
            same_in(rt, reloads, told, fault);
            Ok(core)
        }
    }
}

#[test]
fn refused_files(rt: HostRuntime) -> Result<(), Fail> {
    let images = Bump::new(rt.alloc());
    let bytes = bytes_of(rt.alloc(), ifs_test_images::images::FIRST_RUN)?;
    let kept = images.try_alloc_slice_copy(bytes.as_slice())?;
    let core = opened(rt.alloc(), kept)?;
    let core = check_file(&rt, &images, core, 0, ReloadFault::File)?;
    let core = check_file(&rt, &images, core, RELOADS - 1, ReloadFault::File)?;
    let _core = check_file(&rt, &images, core, RELOADS, ReloadFault::TooMany)?;
    Ok(())
}

/// The lines of refusals.
#[test]
fn lines_of_refusals(rt: HostRuntime) -> Result<(), Fail> {
    let lines = [
        (ReloadFault::File, "refused L2\n"),
        (ReloadFault::TooMany, "refused L3\n"),
        (ReloadFault::Carry(CarryCause::Memory), "refused L0\n"),
        (ReloadFault::Carry(CarryCause::Queued), "refused L1\n"),
        (ReloadFault::Image(VerifyFault::OutOfMemory), "refused V0\n"),
        (
            ReloadFault::Image(VerifyFault::NoImage(ImageFault::WrongMagic { at: 0 })),
            "refused I2 byte 0\n",
        ),
        (
            ReloadFault::Image(VerifyFault::CostOver(At::Head)),
            "refused V12 head\n",
        ),
    ];
    for (fault, line) in lines {
        check_line(&rt, rt.alloc(), fault, line)?;
    }
    Ok(())
}

fn check_line(
    rt: &impl Abort,
    alloc: Global,
    fault: ReloadFault,
    line: &str,
) -> Result<(), AllocError> {
    let mut output = MemoryOut::new(alloc);
    holds_in(rt, line, write_refused(fault.text(), &mut output).is_ok());
    same(rt, output.written(), line.as_bytes());
    Ok(())
}

/// A failed write of a line is reported.
#[test]
fn lines_that_are_not_written(rt: HostRuntime) {
    for call in 0..3 {
        let mut output = MemoryOut::failing_after(rt.alloc(), call);
        holds_in(
            &rt,
            call,
            write_refused(ReloadFault::File.text(), &mut output).is_err(),
        );
    }
}

/// The words of refusals that are not those of an image.
#[test]
fn reasons_of_refusals(rt: HostRuntime) -> Result<(), Fail> {
    let rows = [
        (
            ReloadFault::TooMany,
            "there were 64 reloads since the start",
        ),
        (
            ReloadFault::Carry(CarryCause::Memory),
            "memory ran out for what the daemon knows",
        ),
        (
            ReloadFault::Carry(CarryCause::Queued),
            "a command waits in the queue",
        ),
        (
            ReloadFault::Image(VerifyFault::OutOfMemory),
            "memory ran out for the new image",
        ),
        (ReloadFault::File, "the file is not read"),
    ];
    for (fault, words) in rows {
        check_reason(&rt, rt.alloc(), fault, &FileRead::Skipped, words)?;
    }
    check_file_reason(&rt, rt.alloc(), FileFault::TooLarge, "too large")?;
    check_file_reason(&rt, rt.alloc(), FileFault::NotRegular, "not a regular file")
}

fn check_file_reason(
    rt: &impl Abort,
    alloc: Global,
    fault: FileFault,
    words: &str,
) -> Result<(), Fail> {
    check_reason(rt, alloc, ReloadFault::File, &FileRead::Fault(fault), words)
}

/// Asserts the words of a refusal.
fn check_reason(
    rt: &impl Abort,
    alloc: Global,
    fault: ReloadFault,
    read: &FileRead,
    words: &str,
) -> Result<(), Fail> {
    let reason = reason_of(alloc, fault, read)?;
    let told = format!(in alloc; "{reason}")?;
    same_in(rt, words, told.as_str(), words);
    Ok(())
}

/// A refused image is said on one line, whatever its bytes are.
#[test]
fn reasons_of_images(rt: HostRuntime) -> Result<(), Fail> {
    let fault = VerifyFault::NoImage(ImageFault::WrongMagic { at: 0 });
    let bytes = b"IFSX\n".to_vec(rt.alloc())?;
    let read = FileRead::Bytes(bytes);
    let reason = reason_of(rt.alloc(), ReloadFault::Image(fault), &read)?;
    let told = format!(in rt.alloc(); "{reason}")?;
    holds_in(&rt, told.as_str(), !told.is_empty() && !told.contains('\n'));
    Ok(())
}
