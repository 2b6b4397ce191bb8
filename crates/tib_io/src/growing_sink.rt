// A sink in memory that grows.
ghost use Rattle.std.specs.Prelude.{◌≡◌, ◌≤◌, Some, None, [], true, false, IsOk, OnErr, OnOk, MatchResult};
ghost use Rattle.tib_io.specs.Causes.{Rose};
ghost use Rattle.tib_io.specs.Memory.{seen_of};
ghost use Rattle.tib_io.specs.Writes.{Takes, Calm};

use crate::{Failed, Sink};
use std::alloc::Global;
use std::marker::Model;

/// A sink that takes memory for what is written. It fails only if memory is refused.
#[derive(Drop)]
pub struct GrowingSink {
    bytes: Vec<u8>,
    faults: u64,
    finished: bool,
}

impl Model for GrowingSink {
    ghost use Rattle.tib_io.specs.Memory.{SinkThatGrows};

    ghost Value = { SinkThatGrows };

    ghost view = { λ s. record { bytes = s.bytes.items; faults = s.faults; finished = s.finished } };
}

impl GrowingSink {
    /// An empty sink. It takes no memory yet.
    pub fn new(alloc: Global) -> GrowingSink
        ensures { result ≡ record { bytes = []; faults = 0; finished = false } }
    {
        GrowingSink {
            bytes: Vec::new(alloc),
            faults: 0,
            finished: false,
        }
    }

    /// The bytes that were written.
    pub fn bytes(&self) -> &[u8]
        ensures { result.now ≡ self.now.bytes }
    {
        &self.bytes
    }
}

impl Sink for GrowingSink {
    ghost seen = { seen_of };

    fn write(&mut self, piece: &[u8]) -> Result<usize, Failed> {
        self.finished = false;
        match self.bytes.extend_from_slice(piece) {
            Ok(()) => Ok(piece.len()),
            Err(_) => {
                self.faults = self.faults.saturating_add(1);
                Err(Failed)
            }
        }
    }

    fn finish(&mut self) -> Result<(), Failed>
        ensures taken { Takes (seen_of self.old) (seen_of self.new) [] }
        ensures finished { MatchResult result (λ _. self.new.finished ≡ true) (λ _.
            self.new.finished ≡ false) }
        ensures later { self.old.faults ≤ self.new.faults }
        ensures calm { Calm None 0 self.old.faults self.new.faults }
        ensures cause { OnErr result (Rose self.old.faults self.new.faults) }
        ensures steady { OnOk result (self.new.faults ≡ self.old.faults) }

        // It succeeds.
        ensures ok { IsOk result }
    {
        self.finished = true;
        Ok(())
    }
}
