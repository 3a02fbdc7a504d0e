//! Putting parameters in force.
ghost use Rattle.std.specs.Prelude.{◌≡◌, ◌+◌, ◌≤◌, ◌<◌, ◌++◌, List, [], ◌∷◌, take, drop, length, replicate, unwrap_or, option_map, None};
ghost use Rattle.mlp_syntax.specs.declared.params.Params.{Params};
ghost use Rattle.mlp_layout.specs.Allowed.{Allowed};
ghost use Rattle.mlp_params.specs.RestartHeader.{restart};
ghost use Rattle.mlp_params.specs.Parameters.{params};
ghost use Rattle.mlp_params.specs.Filters.{absent};
ghost use Rattle.mlp_params.specs.InForce.{in_force, restarted_channel, stateless};
ghost use Rattle.mlp_params.specs.Applied.{applied, channel_applied, channels_applied};
ghost use Rattle.mlp_params.specs.States.{IsState};

use crate::state::{ChannelState, State};
use arrayvec::ArrayVec;
use mlp_syntax::{ChannelParams, Filter, Kind, MatrixRow, Params, Restart};

/// A list of the same items.
fn copied<T: Copy + Default + Drop, const N: usize>(items: &ArrayVec<T, N>) -> ArrayVec<T, N>
    ensures { result ≡ items.now }
{
    let mut copy: ArrayVec<T, N> = ArrayVec::new();
    let _fits = copy.try_extend_from_slice(items.as_slice());
    copy
}

fn copied_restart(header: &Restart) -> Restart
    ensures { result ≡ header.now }
{
    Restart {
        kind: header.kind,
        output_timing: header.output_timing,
        min: header.min,
        max: header.max,
        max_matrix: header.max_matrix,
        noise_shift: header.noise_shift,
        seed: header.seed,
        carried_a: header.carried_a,
        data_check: header.data_check,
        lossless: header.lossless,
        carried_b: header.carried_b,
        assign: copied(&header.assign),
    }
}

fn zeros(count: u8) -> ArrayVec<u8, 8>
    requires { count ≤ 8 }
    ensures { result.items ≡ replicate count 0 }
{
    let mut zeros: ArrayVec<u8, 8> = ArrayVec::new();
    for _ in 0..count {
        zeros.push(0);
    }
    zeros
}

fn absent<const N: usize>() -> Filter<N>
    ensures { result ≡ absent }
{
    Filter {
        shift: 0,
        coeff_bits: 0,
        coeff_shift: 0,
        coeffs: ArrayVec::new(),
        state: None,
    }
}

/// So many channels as a restart leaves them, in place of those in `out`.
fn restart_channels(count: u8, out: &mut ArrayVec<ChannelState, 8>)
    requires { count ≤ 8 }
    ensures { out.new.items ≡ replicate count restarted_channel }
{
    out.clear();
    for _ in 0..count {
        out.push(ChannelState {
            fir: absent(),
            iir: absent(),
            offset: 0,
            book: 0,
            low: 24,
        });
    }
}

impl State {
    /// What a restart puts in force: presence flags 0xFF, no matrices, blocks of 8 frames, all output shifts and steps
    /// 0, and in each channel no filters, offset 0, no codebook and 24 low bits.
    pub fn at_restart(format: Kind, unit_frames: u16, header: &Restart) -> State
        requires header { Allowed (restart format) header.now }
        requires least { 8 ≤ unit_frames }
        requires most { unit_frames ≤ 160 }
        ensures value { result ≡ in_force format unit_frames header.now [] }
        ensures lawful { IsState result }
    {
        let mut state = State {
            format,
            unit_frames,
            restart: Restart::default(),
            presence: 0,
            block_size: 0,
            rows: ArrayVec::new(),
            shifts: ArrayVec::new(),
            steps: ArrayVec::new(),
            channels: ArrayVec::new(),
        };
        state.put_restart(format, unit_frames, header);
        state
    }

    /// Puts in force what a restart does, in place of what was.
    pub fn put_restart(&mut self, format: Kind, unit_frames: u16, header: &Restart)
        requires header { Allowed (restart format) header.now }
        requires least { 8 ≤ unit_frames }
        requires most { unit_frames ≤ 160 }
        ensures value { self.new ≡ in_force format unit_frames header.now [] }
        ensures lawful { IsState self.new }
    {
        self.format = format;
        self.unit_frames = unit_frames;
        self.restart = copied_restart(header);
        self.presence = 0xFF;
        self.block_size = 8;
        self.rows.clear();
        self.shifts = zeros(header.max_matrix + 1);
        self.steps = zeros(header.max + 1);
        restart_channels(header.max + 1, &mut self.channels);
    }
}

fn replace_bytes(given: &Option<ArrayVec<u8, 8>>, now: &mut ArrayVec<u8, 8>)
    ensures { now.new ≡ unwrap_or given.now now.old }
{
    if let Some(bytes) = given {
        *now = copied(bytes);
    }
}

fn copied_row(row: &MatrixRow) -> MatrixRow
    ensures { result ≡ row.now }
{
    MatrixRow {
        dest: row.dest,
        frac: row.frac,
        bypass: row.bypass,
        coeffs: copied(&row.coeffs),
        noise_shift: row.noise_shift,
    }
}

fn copied_rows(rows: &ArrayVec<MatrixRow, 8>) -> ArrayVec<MatrixRow, 8>
    ensures { result ≡ rows.now }
{
    let items = rows.as_slice();
    let mut copy: ArrayVec<MatrixRow, 8> = ArrayVec::new();
    for row in items {
        copy.push(copied_row(row));
    }
    copy
}

fn replace_rows(given: &Option<ArrayVec<MatrixRow, 8>>, now: &mut ArrayVec<MatrixRow, 8>)
    ensures { now.new ≡ unwrap_or given.now now.old }
{
    if let Some(rows) = given {
        *now = copied_rows(rows);
    }
}

/// A filter that is given is in force without its state.
fn replace_filter<const N: usize>(given: &Option<Filter<N>>, now: &mut Filter<N>)
    ensures { now.new ≡ unwrap_or (option_map stateless given.now) now.old }
{
    if let Some(filter) = given {
        now.shift = filter.shift;
        now.coeff_bits = filter.coeff_bits;
        now.coeff_shift = filter.coeff_shift;
        now.coeffs = copied(&filter.coeffs);
        now.state = None;
    }
}

fn apply_channel(given: &Option<ChannelParams>, now: &mut ChannelState)
    ensures { now.new ≡ channel_applied now.old given.now }
{
    if let Some(channel) = given {
        replace_filter(&channel.fir, &mut now.fir);
        replace_filter(&channel.iir, &mut now.iir);
        now.offset = channel.offset.unwrap_or(now.offset);
        now.book = channel.book;
        now.low = channel.low;
    }
}

fn apply_channels(first: u8, given: &[Option<ChannelParams>], channels: &mut [ChannelState])
    requires { first + length given.now ≤ length channels.old }
    ensures { channels.new ≡ take first channels.old ++ channels_applied (drop first channels.old) given.now }
{
    let first = first as usize;
    for (i, channel) in given.iter().enumerate() {
        apply_channel(channel, &mut channels[first + i]);
    }
}

/// Replaces the items that are given.
fn replace_items(state: &mut State, given: &Params)
    requires state { IsState state.old }
    requires given { Allowed (params state.old) given.now }
    ensures { state.new ≡ applied state.old given.now }
{
    state.presence = given.presence.unwrap_or(state.presence);
    state.block_size = given.block_size.unwrap_or(state.block_size);
    replace_rows(&given.matrices, &mut state.rows);
    replace_bytes(&given.shifts, &mut state.shifts);
    replace_bytes(&given.steps, &mut state.steps);
    apply_channels(
        state.restart.min,
        given.channels.as_slice(),
        state.channels.as_mut_slice(),
    );
}

/// Puts the values that a block gives in force. A filter's state acts once and is never in force.
pub fn apply(state: &mut State, given: &Params)
    requires state { IsState state.old }
    requires given { Allowed (params state.old) given.now }
    ensures step { state.new ≡ applied state.old given.now }
    ensures behind { (earlier : List Params) → let s = state.old in
        s ≡ in_force s.format s.unit_frames s.restart earlier →
        state.new ≡ in_force s.format s.unit_frames s.restart (given.now ∷ earlier) }
    ensures lawful { IsState state.new }
{
    replace_items(state, given);
}
