// What a list of gates is lent: the mask tapes, the channels, and how far both have come.
ghost use Rattle.std.specs.Prelude.{◌≡◌, ◌+◌};
ghost use Rattle.circuit.specs.Lent.{Long};
ghost use Rattle.circuit.specs.Loans.{Room, Sends, items_next, words_sent};

use gate::Sharing;

// Gate `at` takes item `at` of each mask tape and writes word `at` of each channel.
// Three runs of each, as C lends them one by one: `items` and `send` name the three, and no gate does.
#[derive(Drop)]
pub struct Lent<'a> {
    pub m0: &'a [u64],
    pub m1: &'a [u64],
    pub m2: &'a [u64],
    pub c0: &'a mut [u64],
    pub c1: &'a mut [u64],
    pub c2: &'a mut [u64],
    pub at: usize,
}

impl Lent<'_> {
    // The next item of each mask tape; the channels need no room for it.
    #[inline(always)]
    pub fn items(&self) -> Sharing
        requires { Long (self.now.at + 1) self.now.m0.now self.now.m1.now self.now.m2.now }
        ensures { result ≡ items_next self.now }
    {
        Sharing {
            s0: self.m0[self.at],
            s1: self.m1[self.at],
            s2: self.m2[self.at],
        }
    }

    // The next word of each channel: one gate is done.
    #[inline(always)]
    pub fn send(&mut self, z: Sharing)
        requires { Room 1 self.old }
        ensures { Sends 1 (words_sent z) self.old self.new }
    {
        self.c0[self.at] = z.s0;
        self.c1[self.at] = z.s1;
        self.c2[self.at] = z.s2;
        self.at += 1;
    }

    // One gate: its words, from the next items, are sent.
    #[inline(always)]
    pub fn gate<F: FnOnce(Sharing) -> Sharing>(&mut self, words: F) -> Sharing
        requires room { Room 1 self.old }
        requires words { F.pre words (items_next self.old) }
        ensures is { F.post words (items_next self.old) result }
        ensures sent { Sends 1 (words_sent result) self.old self.new }
    {
        let t = self.items();
        let z = words(t);
        self.send(z);
        z
    }
}
