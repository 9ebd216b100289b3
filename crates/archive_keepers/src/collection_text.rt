//! The text of a collection, which a folder keeps.

ghost use Rattle.std.specs.Prelude.{OnOk};
ghost use Rattle.std.specs.Io.KnownBytes.{Appends};
ghost use Rattle.tws_best.specs.Best.{collection_text};

use byte_output::OutFault;
use folders::Contents;
use std::alloc::Allocator;
use std::io::Write;
use tws_best::Collection;

/// The text of a collection.
#[derive(Drop)]
pub(crate) struct CollectionText<'a, A: Allocator> {
    pub(crate) collection: &'a Collection<A>,
}

impl<'a, A: Allocator> Contents for CollectionText<'a, A> {
    ghost text = { λ t. collection_text t.collection.now };

    fn write_to<W: Write>(&self, out: &mut W) -> Result<(), OutFault> {
        self.collection.write_text(out)
    }
}
