//! A presentation: its decoder and its extractor, and what they gave.
ghost use Rattle.std.specs.Prelude.{◌≡◌, ◌+◌, ◌≤◌, ◌<◌, ◌%◌, ℕ, ◌^◌, sum, map, length, IfOk};
ghost use Rattle.std.specs.List.{range_with_len};
ghost use Rattle.mlp_gen.specs.Player.{unplayed, shown_by, CanTake, Took, player_at};

use crate::report::Shown;
use arrayvec::ArrayVec;
use mlp_extract::Extractor;
use mlp_fold::channels_of;
use mlp_pcm::pack_unit;
use mlp_present::Decoder;
use mlp_stream::Session;
use mlp_syntax::{Memory, UnitBytes};
use std::alloc::Global;
use std::marker::Model;

/// A sum with that of bytes, modulo 2^32.
fn add_bytes(so_far: u32, bytes: &[u8]) -> u32
    ensures { result ≡ (so_far + sum bytes.now) % 2 ^ 32 }
{
    let mut total = so_far;
    for i in 0..bytes.len() {
        total = total.wrapping_add(u32::from(bytes[i]));
    }
    total
}

/// A decoder and an extractor of a presentation, which take the same units. All that they keep has a fixed size,
/// some 1.2 MB, and is taken when they are opened.
#[derive(Drop)]
pub struct Player {
    presentation: u8,
    decoder: Box<Decoder>,
    extractor: Box<Extractor>,
    frames: ArrayVec<[i32; 8], 160>,
    bytes: UnitBytes,
    given: u64,
    sum: u32,
    extracted: u64,
}

impl Model for Player {
    ghost use Rattle.mlp_gen.specs.Player.{Played, IsPlaying};

    ghost Value = { Played };

    ghost view = { λ s. record { held = s.decoder.value; frames = s.given; sum = s.sum; extracted = s.extracted } };

    ghost invariant = { λ s. IsPlaying s.presentation s.decoder.value s.extractor.value s.given s.extracted };
}

impl Player {
    /// A player of presentation `k`, 0 to 2, that has taken no unit.
    ///
    /// # Errors
    ///
    /// `Memory` where there is none for it.
    pub fn open(alloc: Global, k: u8) -> Result<Player, Memory>
        requires { k ≤ 2 }
        ensures { IfOk result (λ player. player ≡ unplayed k) }
    {
        let decoder = Box::new(alloc, Decoder::open(k)).map_err(|_| Memory)?;
        let extractor = Box::new(alloc, Extractor::open(k)).map_err(|_| Memory)?;
        Ok(Player {
            presentation: k,
            decoder,
            extractor,
            frames: ArrayVec::new(),
            bytes: ArrayVec::new(),
            given: 0,
            sum: 0,
            extracted: 0,
        })
    }

    /// Decodes and extracts the unit that the bytes begin with.
    pub fn take(&mut self, unit: &[u8])
        requires { CanTake unit.now self.old }
        ensures { Took unit.now self.old self.new }
    {
        let channels = channels_of(self.presentation);
        let _taken = self.decoder.unit(unit, &mut self.frames);
        let _packed = pack_unit(&self.frames, channels, 24, &mut self.bytes);
        self.given += self.frames.len() as u64;
        self.sum = add_bytes(self.sum, &self.bytes);
        let _extracted = self.extractor.unit(unit, &mut self.bytes);
        self.extracted += self.bytes.len() as u64;
    }

    /// What was given so far.
    pub fn shown(&self) -> Shown
        ensures { result ≡ shown_by self.now }
    {
        Shown {
            frames: self.given,
            sum: self.sum,
            extracted: self.extracted,
        }
    }
}

/// Players of the first presentations, up to 3, that have taken no unit.
///
/// # Errors
///
/// `Memory` where there is none for them.
pub fn open_players(alloc: Global, count: u8) -> Result<Vec<Player>, Memory>
    requires { count ≤ 3 }
    ensures { IfOk result (λ players. players.items ≡ map unplayed (range_with_len 0 count)) }
{
    let mut players = Vec::new(alloc);
    for k in 0..count {
        let player = Player::open(alloc, k)?;
        players.push(player).map_err(|_| Memory)?;
    }
    Ok(players)
}

/// All players take the unit that the bytes begin with.
pub fn take_unit(unit: &[u8], players: &mut [Player])
    requires { (k : ℕ) → k < length players.old → CanTake unit.now (player_at players.old k) }
    ensures { (k : ℕ) → k < length players.old → Took unit.now (player_at players.old k) (player_at players.new k) }
{
    for k in 0..players.len() {
        players[k].take(unit);
    }
}

/// What the players gave.
pub fn shown_of(players: &[Player]) -> ArrayVec<Shown, 3>
    requires { length players.now ≤ 3 }
    ensures { result.items ≡ map shown_by players.now }
{
    let mut shown = ArrayVec::new();
    for k in 0..players.len() {
        shown.push(players[k].shown());
    }
    shown
}
