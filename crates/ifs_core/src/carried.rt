//! What a reload carries from one core to the next.

ghost use Rattle.std.specs.Prelude.{◌≡◌, ◌++◌, ◌≤◌, ◌<◌, [], IfOk, OnOk, Some, length, map, slice_get};
ghost use Rattle.ifs_core.specs.Carrying.{known_link, known_links as all_known, link_named as named_by};

use crate::gateway::Core;
use crate::step::Record;
use arrayvec::ArrayVec;
use circular_buffer::HeapCircularBuffer;
use ifs_base::{Items, LinkState, Text};
use ifs_image::ImageView;
use std::alloc::{AllocError, Global};
use std::marker::Model;
use thiserror::Error;

/// The link state of an interface, by its name.
#[derive(Debug, Drop)]
pub struct NamedLink {
    pub name: Text,
    pub link: LinkState,
}

/// What `carry` keeps of a core: the known link states, the number of the next run, and the memory of the trace,
/// which is empty.
#[derive(Debug)]
pub struct Carried {
    links: Items<NamedLink>,
    next_run: u64,
    trace: HeapCircularBuffer<Record>,
}

impl Drop for Carried {
    fn drop(self) {
        let Carried {
            links: _links,
            next_run: _next_run,
            trace: _trace,
        } = self;
    }
}

impl Model for Carried {
    ghost use Rattle.std.specs.Prelude.{◌≡◌, []};
    ghost use Rattle.circular_buffer.specs.Buffer.{buffer};
    ghost use Rattle.ifs_core.specs.Carrying.{Carrying};

    ghost Value = { Carrying };

    ghost view = { λ a. record { links = a.links; next_run = a.next_run } };

    ghost invariant = { λ a. a.trace ≡ buffer [] 256 };
}

/// Why a core cannot be carried.
#[derive(Clone, Copy, Debug, PartialEq, Eq, Error)]
pub enum CarryCause {
    /// L0: an allocation fails.
    #[error("L0")]
    Memory,
    /// L1: commands wait in the queue, and would be lost.
    #[error("L1")]
    Queued,
}

/// A core that cannot be carried, unchanged, and the cause.
#[derive(Debug, Drop, Error)]
#[error("{cause}")]
pub struct CarryFault<'a> {
    pub core: Core<'a>,
    pub cause: CarryCause,
}

impl Carried {
    ghost use Rattle.std.specs.Prelude.{◌≡◌, []};
    ghost use Rattle.circular_buffer.specs.Buffer.{buffer};

    /// These link states, this number of the next run, and the memory of this trace. Its records are dropped.
    pub(crate) fn new(
        links: Items<NamedLink>,
        next_run: u64,
        mut trace: HeapCircularBuffer<Record>,
    ) -> Carried
        requires { trace.capacity ≡ 256 }
        ensures { result ≡ record { links = links; next_run = next_run } }
    {
        trace.clear();
        Carried {
            links,
            next_run,
            trace,
        }
    }

    /// The known link states.
    pub(crate) fn links(&self) -> &[NamedLink]
        ensures { result.now ≡ self.now.links }
    {
        self.links.as_slice()
    }

    /// The number of the next run; 0 if none is left.
    pub(crate) fn next_run(&self) -> u64
        ensures { result ≡ self.now.next_run }
    {
        self.next_run
    }

    /// The memory of the trace, which is empty.
    pub(crate) fn into_trace(self) -> HeapCircularBuffer<Record>
        ensures { result ≡ buffer [] 256 }
    {
        let Carried {
            links: _links,
            next_run: _next_run,
            trace,
        } = self;
        trace
    }
}

/// Adds the link state of an interface of this name, unless it is unknown.
fn add_known(
    alloc: Global,
    known: &mut Vec<NamedLink>,
    name: &str,
    link: LinkState,
) -> Result<(), AllocError>
    ensures { OnOk result (known.new.items ≡ known.old.items ++ known_link name.now link) }
{
    if link == LinkState::Unknown {
        return Ok(());
    }
    let name = Text::new(String::from_str(alloc, name)?);
    known.push(NamedLink { name, link })?;
    Ok(())
}

/// The known link states of the interfaces of an image.
pub fn known_links(
    alloc: Global,
    image: &ImageView<'_>,
    links: &[LinkState],
) -> Result<Items<NamedLink>, AllocError>
    requires { length links.now ≡ length image.now.interfaces }
    ensures { IfOk result (λ known. known ≡ all_known image.now.interfaces links.now) }
{
    let mut known = Vec::new(alloc);
    for interface in 0..image.interfaces() {
        add_known(
            alloc,
            &mut known,
            image.interface(interface),
            links[interface],
        )?;
    }
    Ok(Items::new(known))
}

/// The known link state of the interface of a name, or unknown.
fn link_named(links: &[NamedLink], name: &str) -> LinkState
    ensures { result ≡ named_by links.now name.now }
{
    for known in links {
        if known.name.as_str() == name {
            return known.link;
        }
    }
    LinkState::Unknown
}

/// The link states of an image's interfaces: those that are known under their names, or unknown.
pub fn links_by_name(image: &ImageView<'_>, known: &[NamedLink]) -> ArrayVec<LinkState, 64>
    requires { length image.now.interfaces ≤ 64 }
    ensures value { result.items ≡ map (named_by known.now) image.now.interfaces }
    ensures known { length result.items ≡ length image.now.interfaces }
{
    let mut links = ArrayVec::new();
    for interface in 0..image.interfaces() {
        links.push(link_named(known, image.interface(interface)));
    }
    links
}
