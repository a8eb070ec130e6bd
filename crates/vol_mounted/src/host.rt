//! The services of the program that the server runs in.
ghost use Rattle.std.specs.Prelude.{ℕ, List, [], ◌∷◌, Option};
ghost use Rattle.std.specs.Bool.{OnTrue, OnFalse};
ghost use Rattle.vol_serve.specs.Messages.{Grows};

use pdp_words::Image;

/// The services of the program that the server runs in: the time, and saving images.
pub trait Host {
    // the images saved so far, in order, if they are known
    ghost saved: { Self → Option (List (List ℕ)) };

    /// Returns the time in seconds since the beginning of 1970.
    fn seconds(&self) -> u32;

    /// Saves an image. Returns false if it couldn't be saved; the image saved before then remains.
    fn save(&mut self, image: &Image) -> bool
        ensures saved { OnTrue result (Grows (saved self.old) (saved self.new) (image.now ∷ [])) }
        ensures kept { OnFalse result (Grows (saved self.old) (saved self.new) []) };
}
