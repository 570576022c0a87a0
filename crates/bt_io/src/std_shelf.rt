//! A `Shelf` over the system's files and standard input.
ghost use Rattle.std.specs.Prelude.{◌≡◌, true, false, None, is_some};
ghost use Rattle.std.specs.Option.{option_and_then};

use crate::{Failed, Shelf};
use std::fs;
use std::io::Read;
use std::rt::Files;

/// The chosen source: an open file, or standard input.
#[derive(Drop)]
enum Opened<F, I> {
    File(F),
    Input(I),
}

/// The system's files under their paths, and standard input under the name `-`. `held` knows no bytes; `left` knows
/// what the opened file or reader exposes as `remaining`.
#[derive(Drop)]
pub struct StdShelf<'a, R: Files + Input> {
    rt: &'a R,
    opened: Option<Opened<R::File, R::Reader>>,
    faults: u64,
}

impl<'a, R: Files + Input> StdShelf<'a, R> {
    /// A shelf with no file chosen and no faults counted.
    pub fn make(rt: &'a R) -> StdShelf<'a, R>
        ensures ready { ⟦<StdShelf<'a, R> as Shelf>⟧.ready result ≡ false }
        ensures faults { ⟦<StdShelf<'a, R> as Shelf>⟧.faults result ≡ 0 }
    {
        StdShelf {
            rt,
            opened: None,
            faults: 0,
        }
    }
}

impl<'a, R: Files + Input> Shelf for StdShelf<'a, R> {
    ghost use Rattle.bt_io.specs.Code.Opened.{left_in};

    ghost may = { λ _ _. true };

    ghost held = { λ _ _. None };

    ghost ready = { λ s. is_some s.opened };

    ghost left = { λ s. option_and_then (left_in ⟦<R::File as Read>⟧.remaining ⟦<R::Reader as Read>⟧.remaining) s.opened };

    ghost faults = { λ s. s.faults };

    ghost never_fails = { λ _. false };

    fn choose(&mut self, name: &str) -> Result<(), Failed> {
        if name == "-" {
            self.opened = Some(Opened::Input(self.rt.reader()));
            return Ok(());
        }
        match fs::open(self.rt, name) {
            Ok(file) => {
                self.opened = Some(Opened::File(file));
                Ok(())
            }
            Err(_) => {
                self.opened = None;
                self.faults = self.faults.saturating_add(1);
                Err(Failed)
            }
        }
    }

    fn read(&mut self, buf: &mut [u8]) -> Result<usize, Failed> {
        let got = match &mut self.opened {
            None => unreachable!(),
            Some(Opened::File(file)) => file.read(buf),
            Some(Opened::Input(input)) => input.read(buf),
        };
        match got {
            Ok(count) => Ok(count),
            Err(_) => {
                self.faults = self.faults.saturating_add(1);
                Err(Failed)
            }
        }
    }
}
