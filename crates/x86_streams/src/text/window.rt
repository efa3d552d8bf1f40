//! The next bytes of an image.

ghost use Rattle.std.specs.Prelude.{◌≡◌, ◌<◌, [], length, None, true, false};
ghost use Rattle.x86_streams.specs.Text.Window.{Steps, TakesBytes, Fills, instruction_max};
ghost use Rattle.x86_streams.specs.Text.Beginning.{IsOpenText};

use crate::outside::input::Input;
use crate::text::beginning::{Beginning, beginning_of};
use crate::text::image_bytes::ImageBytes;
use crate::text::reader::{Ending, TextReader};

/// The next bytes of an image, and the reader of what follows them.
#[derive(Drop)]
pub struct Window {
    /// The next bytes of the image.
    pub bytes: ImageBytes,
    /// What reads the text, at what follows those bytes.
    pub text: TextReader,
    /// How the text ended, where it has: then the image has no byte after these.
    pub ended: Option<Ending>,
}

impl Window {
    /// A window over a text of at most `max` bytes, with nothing read.
    pub fn new(max: u64) -> Window
        ensures bytes { result.bytes.items ≡ [] }
        ensures position { result.text.position ≡ 0 }
        ensures room { result.text.room ≡ max }
        ensures unread { result.text.unread ≡ [] }
        ensures ended { result.ended ≡ None }
    {
        Window {
            bytes: ImageBytes::NONE,
            text: TextReader::new(max),
            ended: None,
        }
    }

    /// Takes bytes of the image from what was read, many at once, unless the text has ended.
    #[cold]
    #[inline(never)]
    fn take_many(&mut self)
        requires { length self.old.bytes.items < instruction_max }
        ensures takes { TakesBytes self.old.ended self.old.bytes.items self.old.text
            self.new.bytes.items self.new.text }
        ensures ended { self.new.ended ≡ self.old.ended }
    {
        match self.ended {
            Some(_) => {}
            None => {
                let taken = self.bytes.read(self.text.within());
                self.text.advance_by(taken);
            }
        }
    }

    /// Takes bytes of the image from what was read, where there are fewer than an instruction may have. Nothing is
    /// read.
    #[inline(always)]
    pub fn take_known(&mut self)
        ensures takes { TakesBytes self.old.ended self.old.bytes.items self.old.text
            self.new.bytes.items self.new.text }
        ensures ended { self.new.ended ≡ self.old.ended }
    {
        if !self.bytes.is_full() {
            self.take_many();
        }
    }

    /// Takes the next blank or pair of what was read, or ends the text at a byte that isn't allowed. It returns false
    /// where the bytes that follow decide what comes.
    pub fn step(&mut self) -> bool
        requires ended { self.old.ended ≡ None }
        requires few { length self.old.bytes.items < instruction_max }
        ensures steps { result ≡ true → Steps self.old.bytes.items self.old.text
            self.new.ended self.new.bytes.items self.new.text }
        ensures same { result ≡ false → self.new ≡ self.old }
        ensures open { result ≡ false → IsOpenText self.old.text.unread self.old.text.room }
    {
        match beginning_of(self.text.unread(), self.text.room()) {
            Beginning::Open => return false,
            Beginning::Blank => self.text.advance_by(1),
            Beginning::Pair(byte) => {
                self.text.advance_by(2);
                self.bytes.push(byte);
            }
            Beginning::Bad(at) => self.ended = Some(Ending::Bad(self.text.position_after(at))),
            Beginning::Large => self.ended = Some(Ending::Large),
        }
        true
    }

    /// Reads on, where at most half a pair is left.
    pub fn fill<R, I: Input<R>>(&mut self, input: &I, reader: &mut R)
        requires ended { self.old.ended ≡ None }
        requires open { IsOpenText self.old.text.unread self.old.text.room }
        ensures fills { Fills I.reads self.old.bytes.items self.old.text
            self.new.ended self.new.text reader.old reader.new }
        ensures bytes { self.new.bytes ≡ self.old.bytes }
    {
        match self.text.read(input, reader) {
            Ok(0) => {
                self.ended = Some(match self.text.unread().len() {
                    0 => Ending::Clean,
                    left => Ending::Bad(self.text.position_after(left as u64)),
                });
            }
            Ok(_) => {}
            Err(_) => self.ended = Some(Ending::Fault),
        }
    }
}
