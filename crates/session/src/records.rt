// A job's record, in words that say a sound one, since every order leaves it sound.
ghost use Rattle.std.specs.Prelude.{◌≡◌};
ghost use Rattle.gate.specs.Lent.{at_entry_mut, at_exit};
ghost use Rattle.machine.specs.Registers.{empty_machine};
ghost use Rattle.session.specs.Kept.{tapes_in};
ghost use Rattle.session.specs.Outputs.{ordered, state, turned};
ghost use Rattle.layout.specs.Layout.{Says};
ghost use Rattle.session.specs.Records.{RecordFits, machine_in};

use crate::replies::Reply;
use crate::tapes::TapeLines;
use layout::{CHANNELS_AT, MASKS_AT, RECORD_WORDS};
use machine::Order;
use order::{refusal, value};
use std::marker::Model;
use step::step_words;

// The record in words, seen as the record that they say.
#[derive(Drop)]
pub struct SoundRecord {
    words: [u64; RECORD_WORDS],
}

impl Model for SoundRecord {
    ghost use Rattle.machine.specs.declared.registers.Machine.{Machine};

    ghost Value = { Machine };

    ghost use Rattle.session.specs.Records.{RecordFits, machine_in};

    ghost view = { λ r. machine_in r.words };

    ghost invariant = { λ r. RecordFits r.words };
}

impl SoundRecord {
    // Empty registers, zero positions. No derived Default: its contract would be of the words, not of the record that they say.
    pub fn empty() -> SoundRecord
        ensures { result ≡ empty_machine }
    {
        SoundRecord {
            words: [0; RECORD_WORDS],
        }
    }

    // The record that words say, a sound one: a job can be taken up at any.
    pub fn of(words: [u64; RECORD_WORDS]) -> SoundRecord
        requires { RecordFits words }
        ensures { result ≡ machine_in words }
    {
        SoundRecord { words }
    }

    // Its words, of which `of` makes it again.
    pub fn words(&self) -> &[u64]
        ensures says { Says result.now self.now }
        ensures fits { RecordFits result.now }
    {
        &self.words
    }

    // Its position on the mask tapes.
    pub fn masks_at(&self) -> u64
        ensures { result ≡ self.now.masks_at }
    {
        self.words[MASKS_AT]
    }

    // And on the channels.
    pub fn channels_at(&self) -> u64
        ensures { result ≡ self.now.channels_at }
    {
        self.words[CHANNELS_AT]
    }

    // 01: "kinds 1 to 9 are the orders". The record is sound, so its words are not looked at again.
    // The wires stay three slices, as a step takes them: a program in another language lends them so.
    pub fn give_order(
        &mut self,
        o: Order,
        tapes: &TapeLines,
        c0: &mut [u64],
        c1: &mut [u64],
        c2: &mut [u64],
    ) -> Reply
        ensures { turned (state self.new (tapes_in tapes.now) (at_exit c0 c1 c2)) (Some result)
            ≡ ordered (state self.old (tapes_in tapes.now) (at_entry_mut c0 c1 c2)) o }
    {
        let words = &mut self.words;
        let answer = step_words(
            true,
            o,
            words,
            tapes.m0.as_slice(),
            tapes.m1.as_slice(),
            tapes.m2.as_slice(),
            tapes.dealer.as_slice(),
            c0,
            c1,
            c2,
        );
        Reply {
            refusal: refusal(answer),
            value: value(answer),
        }
    }
}
