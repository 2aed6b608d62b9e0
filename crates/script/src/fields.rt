// The fields of an event script: what each kind of them holds.
use settings::Config;

#[derive(Clone, Copy)]
pub enum Field {
    Rate(f32),
    Configure(Config),
    // Slot, frequency, strength, eligible.
    Source(u16, f32, f32, bool),
    Retire(u16),
    Release(u16),
    Trigger(u16),
    Seek(f64),
    Advance(u32),
    // The width of a bin in hertz, the seconds since the frame before.
    Frame(f32, f32),
    NoteInput(bool),
    Reset,
    Reserve,
    ReservedTrigger(u16, u64),
}
