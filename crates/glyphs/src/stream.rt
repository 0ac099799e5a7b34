// The random stream in place of rand's StdRng: SplitMix64.
ghost use Rattle.std.specs.Prelude.{◌≡◌};
ghost use Rattle.glyphs.specs.Stream.{seeded, draw, random_range};

#[derive(Clone, Copy)]
pub struct Stream {
    pub state: u64,
}

// What is drawn, and the stream after it.
#[derive(Clone, Copy)]
pub struct Drawn<T> {
    pub value: T,
    pub next: Stream,
}

impl Stream {
    pub fn seeded(seed: u64, hash: u64) -> Stream
        ensures { result ≡ seeded seed hash }
    {
        Stream { state: seed ^ hash }
    }

    pub fn draw(self) -> Drawn<u64>
        ensures { result ≡ draw self }
    {
        let state = self.state.wrapping_add(0x9e37_79b9_7f4a_7c15);
        let a = (state ^ (state >> 30)).wrapping_mul(0xbf58_476d_1ce4_e5b9);
        let b = (a ^ (a >> 27)).wrapping_mul(0x94d0_49bb_1331_11eb);
        let next = Stream { state };
        Drawn {
            value: b ^ (b >> 31),
            next,
        }
    }

    pub fn random_range(self, low: f64, high: f64) -> Drawn<f64>
        ensures { result ≡ random_range self low high }
    {
        let d = self.draw();
        let unit = ((d.value >> 11) as f64) / 9007199254740992.0;
        let next = d.next;
        Drawn {
            value: low + (high - low) * unit,
            next,
        }
    }
}
