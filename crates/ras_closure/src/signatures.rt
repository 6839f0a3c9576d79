ghost use Rattle.std.specs.Prelude.{◌≡◌, ◌+◌, ◌*◌, ◌<◌, ◌≤◌, length, IfOk, slice_set};
ghost use Rattle.ras_closure.specs.Signatures.{SignatureParts, signature};

use std::alloc::{AllocError, Global};
use std::marker::Model;

/// For each function and class of terms an image by the function of a term of the class, if one is recorded: a second one is
/// found to have the same signature without a look at all pairs. What was put before classes changed may be stale, so a
/// reader tests what it finds.
#[derive(Debug, Drop)]
pub struct Signatures {
    functions: usize,
    width: usize,
    images: Vec<u32>,
}

impl Model for Signatures {
    ghost use Rattle.std.specs.Prelude.{◌≡◌, ◌*◌, length};
    ghost use Rattle.ras_closure.specs.Signatures.{SignatureParts};

    ghost Value = { SignatureParts };

    ghost view = { λ s. record { functions = s.functions; width = s.width; images = s.images.items } };

    ghost invariant = { λ s. length s.images.items ≡ s.functions * s.width };
}

impl Signatures {
    /// Room for the images of so many functions, of terms of so many classes.
    pub fn new(alloc: Global, functions: usize, width: usize) -> Result<Signatures, AllocError>
        ensures functions { IfOk result (λ s. s.functions ≡ functions) }
        ensures width { IfOk result (λ s. s.width ≡ width) }
    {
        let Some(room) = functions.checked_mul(width) else {
            return Err(AllocError);
        };
        let images = vec![in alloc; 0; room]?;
        Ok(Signatures {
            functions,
            width,
            images,
        })
    }

    /// What every table of signatures keeps.
    pub fn known(&self)
        ensures { length self.now.images ≡ self.now.functions * self.now.width }
    {
        // to look at a field gives the proof the invariant
        let _ = &self.images;
    }

    /// The image that was put last for the function and the class.
    pub fn image(&self, function: usize, class: usize) -> u32
        requires function { function < self.now.functions }
        requires class { class < self.now.width }
        ensures { result ≡ signature self.now function class }
    {
        self.images[self.place(function, class)]
    }

    /// Puts an image for the function and the class.
    pub fn put(&mut self, function: usize, class: usize, image: u32)
        requires function { function < self.old.functions }
        requires class { class < self.old.width }
        ensures { self.new ≡ record self.old { images = slice_set self.old.images (function * self.old.width + class) image } }
    {
        let place = self.place(function, class);
        self.images[place] = image;
    }

    /// Where the image for a function and a class stands.
    fn place(&self, function: usize, class: usize) -> usize
        requires function { function < self.now.functions }
        requires class { class < self.now.width }
        ensures value { result ≡ function * self.now.width + class }
        ensures within { result < length self.now.images }
    {
        function * self.width + class
    }
}
