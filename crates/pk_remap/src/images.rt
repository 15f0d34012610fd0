//! How a flash with spare blocks opens its image, and makes one.
ghost use Rattle.std.specs.Prelude.{◌≡◌, ◌*◌, None, IsOk};
ghost use Rattle.pk_base.specs.Shape.{checked};
ghost use Rattle.pk_nand.specs.Calls.{IsReady};
ghost use Rattle.pk_nand.specs.Effects.{OnlyReading};
ghost use Rattle.pk_remap.specs.declared.image.Image.TheVariants.{Unknown, Missing};
ghost use Rattle.pk_remap.specs.Places.{inner_shape as inner_shape_of};
ghost use Rattle.pk_remap.specs.Running.{IsAtRest};
ghost use Rattle.pk_remap.specs.Remapped.{spares_left as spares_left_of};
ghost use Rattle.pk_remap.specs.Causes.{LoadCause, MakeCause};
ghost use Rattle.pk_remap.specs.Loading.{LoadsInner, MakesInner};
ghost use Rattle.pk_remap.specs.MostCalls.{AtMostCalls};
ghost use Rattle.pk_remap.specs.Serving.{PassesCalls};
ghost use Rattle.pk_remap.specs.Answers.{LoadAnswers, MakeAnswers};
ghost use Rattle.pk_remap.specs.FirstTable.{IsMade, IsNoneOrErased};
ghost use Rattle.pk_remap.specs.Logged.{told};

use crate::image::Image;
use crate::mark_log::MarkLog;
use crate::remap::Remap;
use crate::shapes::outer_shape;
use pk_base::Shape;
use pk_nand::{LoadFault, Nand};
use std::alloc::Global;

/// The byte at which an image is wrong that has no table of this shape and these spares, or no room for them.
const NO_TABLE_AT: u64 = 32;

impl<N: Nand> Remap<N> {
    /// Loads the image of the inner flash.
    pub(crate) fn load_inner(&mut self, alloc: Global) -> Result<Option<Shape>, LoadFault>
        requires unknown { self.old.image ≡ Unknown }
        requires none_bad { self.old.counts.bad ≡ None }
        ensures answers { LoadAnswers (⟦<Remap<N> as Nand>⟧.state self.old) result
            (⟦<Remap<N> as Nand>⟧.state self.new) }
        ensures cause { LoadCause self.old.work.spares (N.state self.old.inner) result
            (spares_left_of self.new.image self.new.work) (N.state self.new.inner) }
        ensures reads { LoadsInner (N.state self.old.inner) result (N.state self.new.inner) }
        ensures spares { self.new.work.spares ≡ self.old.work.spares }
    {
        match self.inner.load(alloc) {
            Ok(Some(found)) => self.open_image(alloc, &found),
            Ok(None) => {
                self.image = Image::Missing;
                Ok(None)
            }
            Err(fault) => Err(self.refuse(fault)),
        }
    }

    /// Opens the image of the inner flash, which has this shape.
    pub(crate) fn open_image(
        &mut self,
        alloc: Global,
        found: &Shape,
    ) -> Result<Option<Shape>, LoadFault>
        // Nothing of the image is known yet.
        requires unknown { self.old.image ≡ Unknown }
        requires ready { IsReady (N.state self.old.inner) found.now }
        requires none_bad { self.old.counts.bad ≡ None }

        // The answer and its cause.
        ensures answers { LoadAnswers (⟦<Remap<N> as Nand>⟧.state self.old) result
            (⟦<Remap<N> as Nand>⟧.state self.new) }
        ensures cause { LoadCause self.old.work.spares (N.state self.old.inner) result
            (spares_left_of self.new.image self.new.work) (N.state self.new.inner) }

        // What of the inner flash changed.
        ensures reads { OnlyReading (N.state self.old.inner) (N.state self.new.inner) }
        ensures calls { AtMostCalls (2 * found.now.block_pages) (N.state self.old.inner)
            (N.state self.new.inner) }

        // What is unchanged.
        ensures spares { self.new.work.spares ≡ self.old.work.spares }
    {
        match outer_shape(found, self.work.spares) {
            Ok(shape) => {
                shape.known();
                self.work.fit(shape);
                self.open_table(alloc)
            }
            Err(_) => Err(self.refuse(LoadFault::BadImage { at: NO_TABLE_AT })),
        }
    }

    /// Takes the newest table into memory, and the room for the log.
    fn open_table(&mut self, alloc: Global) -> Result<Option<Shape>, LoadFault>
        // Nothing of the image is known yet.
        requires unknown { self.old.image ≡ Unknown }
        requires ready { IsReady (N.state self.old.inner) (inner_shape_of self.old.work.shape
            self.old.work.spares) }
        requires none { self.old.work.taken ≡ 0 }
        requires none_bad { self.old.counts.bad ≡ None }

        // The answer and its cause.
        ensures answers { LoadAnswers (⟦<Remap<N> as Nand>⟧.state self.old) result
            (⟦<Remap<N> as Nand>⟧.state self.new) }
        ensures cause { LoadCause self.old.work.spares (N.state self.old.inner) result
            (spares_left_of self.new.image self.new.work) (N.state self.new.inner) }

        // What of the inner flash changed.
        ensures reads { OnlyReading (N.state self.old.inner) (N.state self.new.inner) }
        ensures calls { AtMostCalls (2 * self.old.work.shape.block_pages) (N.state self.old.inner)
            (N.state self.new.inner) }

        // What is unchanged.
        ensures spares { self.new.work.spares ≡ self.old.work.spares }
    {
        match self.work.find(&mut self.inner) {
            Ok(true) => self.open_log(alloc),
            Ok(false) => Err(self.refuse(LoadFault::BadImage { at: NO_TABLE_AT })),
            Err(_) => Err(self.refuse(LoadFault::Fault)),
        }
    }

    /// Takes the room for the log.
    fn open_log(&mut self, alloc: Global) -> Result<Option<Shape>, LoadFault>
        // The newest table is found.
        requires unknown { self.old.image ≡ Unknown }
        requires rests { IsAtRest self.old.work (N.state self.old.inner) }
        requires all { self.old.work.taken ≡ self.old.work.used }
        requires none_bad { self.old.counts.bad ≡ None }

        // The answer and its cause.
        ensures answers { LoadAnswers (⟦<Remap<N> as Nand>⟧.state self.old) result
            (⟦<Remap<N> as Nand>⟧.state self.new) }
        ensures cause { LoadCause self.old.work.spares (N.state self.old.inner) result
            (spares_left_of self.new.image self.new.work) (N.state self.new.inner) }

        // What is unchanged.
        ensures reads { OnlyReading (N.state self.old.inner) (N.state self.new.inner) }
        ensures inner { self.new.inner ≡ self.old.inner }
        ensures spares { self.new.work.spares ≡ self.old.work.spares }
    {
        let size = self.work.shape.page_bytes() as usize;
        match MarkLog::with_room(alloc, self.log.room, size) {
            Ok(log) => {
                self.log = log;
                self.image = Image::Sure;
                Ok(Some(self.work.shape))
            }
            Err(_) => Err(LoadFault::Memory),
        }
    }

    /// Makes the image of the inner flash, of this shape, and its first table.
    pub(crate) fn make_inner(
        &mut self,
        alloc: Global,
        shape: Shape,
        inner: Shape,
    ) -> Result<(), LoadFault>
        // The shape, of an image that is missing.
        requires missing { self.old.image ≡ Missing }
        requires inner { inner ≡ inner_shape_of shape self.old.work.spares }
        requires allowed { IsOk (checked (inner_shape_of shape self.old.work.spares)) }

        // The answer and its cause.
        ensures answers { MakeAnswers (⟦<Remap<N> as Nand>⟧.state self.old) shape result
            (⟦<Remap<N> as Nand>⟧.state self.new) }
        ensures cause { MakeCause self.old.work.spares shape (N.state self.old.inner) result
            (spares_left_of self.new.image self.new.work) (N.state self.new.inner) }

        // What of the inner flash changed, wherever it is cut.
        ensures cuts { MakesInner self.old.work.spares shape (N.state self.old.inner)
            (N.state self.new.inner) }
        ensures spares { self.new.work.spares ≡ self.old.work.spares }
    {
        let size = shape.page_bytes() as usize;
        match MarkLog::with_room(alloc, self.log.room, size) {
            Ok(log) => self.make_with(alloc, shape, inner, log),
            Err(_) => Err(LoadFault::Memory),
        }
    }

    /// The same, with the room for the log.
    fn make_with(
        &mut self,
        alloc: Global,
        shape: Shape,
        inner: Shape,
        log: MarkLog,
    ) -> Result<(), LoadFault>
        // The shape, of an image that is missing.
        requires missing { self.old.image ≡ Missing }
        requires inner { inner ≡ inner_shape_of shape self.old.work.spares }
        requires allowed { IsOk (checked (inner_shape_of shape self.old.work.spares)) }

        // The trail.
        requires told { told log ≡ told self.old.log }
        requires sized { log.page_bytes ≡ shape.page_bytes }

        // The answer and its cause.
        ensures answers { MakeAnswers (⟦<Remap<N> as Nand>⟧.state self.old) shape result
            (⟦<Remap<N> as Nand>⟧.state self.new) }
        ensures cause { MakeCause self.old.work.spares shape (N.state self.old.inner) result
            (spares_left_of self.new.image self.new.work) (N.state self.new.inner) }

        // What of the inner flash changed, wherever it is cut.
        ensures cuts { MakesInner self.old.work.spares shape (N.state self.old.inner)
            (N.state self.new.inner) }
        ensures spares { self.new.work.spares ≡ self.old.work.spares }
    {
        self.image = Image::Unknown;
        match self.inner.make(alloc, inner) {
            Ok(()) => self.make_table(shape, log),
            Err(fault) => Err(self.refuse(fault)),
        }
    }

    /// Writes the first table.
    fn make_table(&mut self, shape: Shape, log: MarkLog) -> Result<(), LoadFault>
        // The shape, whose inner image is made.
        requires unknown { self.old.image ≡ Unknown }
        requires made { IsMade shape self.old.work.spares (N.state self.old.inner) }
        requires allowed { IsOk (checked (inner_shape_of shape self.old.work.spares)) }

        // The trail.
        requires told { told log ≡ told self.old.log }
        requires sized { log.page_bytes ≡ shape.page_bytes }

        // The answer and its cause.
        ensures answers { MakeAnswers (⟦<Remap<N> as Nand>⟧.state self.old) shape result
            (⟦<Remap<N> as Nand>⟧.state self.new) }
        ensures cause { MakeCause self.old.work.spares shape (N.state self.old.inner) result
            (spares_left_of self.new.image self.new.work) (N.state self.new.inner) }

        // What of the inner flash changed, wherever it is cut.
        ensures cuts { PassesCalls (IsNoneOrErased shape self.old.work.spares)
            (N.state self.old.inner) (N.state self.new.inner) }
        ensures spares { self.new.work.spares ≡ self.old.work.spares }
    {
        shape.known();
        self.work.fit(shape);
        match self.work.write_first_table(&mut self.inner) {
            Ok(()) => {
                self.log = log;
                self.image = Image::Sure;
                Ok(())
            }
            Err(_) => Err(self.refuse(LoadFault::Fault)),
        }
    }
}
