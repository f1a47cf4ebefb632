//! A loaded program.

use crate::base_pages::{BasePages, base_pages};
use crate::segment::Segment;
use std::alloc::{AllocError, Global};
use std::marker::Model;
use std::sync::Arc;

/// A program before its first instruction: its entry, its segments, and the pages that they fill. The runs of the program share
/// these pages; a run copies a page when it first writes it.
#[derive(Drop)]
pub struct Image {
    entry: u32,
    segments: Vec<Segment>,
    base: Arc<BasePages>,
}

impl Model for Image {
    ghost use Rattle.std.specs.Prelude.{All};
    ghost use Rattle.std.specs.Arc.{arc_value};
    ghost use Rattle.elf32.specs.Layout.{Layout, IsPlaced};
    ghost use Rattle.elf32.specs.Pages.{HoldSegments};

    ghost Value = { Layout };

    ghost view = { λ i. record { entry = i.entry; segments = i.segments.items } };

    ghost invariant = { λ i. All IsPlaced i.segments.items × HoldSegments (arc_value i.base) i.segments.items };
}

impl Image {
    ghost use Rattle.std.specs.Prelude.{◌≡◌, All, IfOk};
    ghost use Rattle.std.specs.Arc.{arc_value};
    ghost use Rattle.elf32.specs.Layout.{IsPlaced};
    ghost use Rattle.elf32.specs.Pages.{HoldSegments};

    /// The program with this entry and these segments; refused if memory ran out.
    pub(crate) fn new(alloc: Global, entry: u32, segments: Vec<Segment>) -> Result<Self, AllocError>
        requires { All IsPlaced segments.items }
        ensures { IfOk result (λ i. i ≡ record { entry = entry; segments = segments.items }) }
    {
        let base = Arc::new(alloc, base_pages(alloc, &segments)?)?;
        Ok(Image {
            entry,
            segments,
            base,
        })
    }

    /// The address of the first instruction.
    pub fn entry(&self) -> u32
        ensures { result ≡ self.now.entry }
    {
        self.entry
    }

    /// The segments, in the order of their program headers. A later one never has a lower address.
    pub fn segments(&self) -> &[Segment]
        ensures value { result.now ≡ self.now.segments }
        ensures placed { All IsPlaced result.now }
    {
        self.segments.as_slice()
    }

    /// The pages of memory with the segments' file bytes in them, and the rights of the pages.
    pub fn base(&self) -> &Arc<BasePages>
        ensures { HoldSegments (arc_value result.now) self.now.segments }
    {
        &self.base
    }
}
