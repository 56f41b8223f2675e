// What a call was replied, as six numbers for C: the fault's number, or 0; then the fault's layer and place, or what was
// answered; then zeros.
use dispatch::Reply;

// No `From`, since replies are of a crate below and lists of numbers of none.
pub(crate) fn numbers(reply: Reply) -> [u32; 6] {
    match reply {
        Reply::Released => [0; 6],
        Reply::Ended(age) => [0, age, 0, 0, 0, 0],
        // kind, row, age, number missed, lowest missed row
        Reply::Ticked(ticked) => [
            0,
            ticked.progress.number(),
            ticked.progress.row(),
            ticked.progress.age(),
            ticked.missed,
            ticked.lowest,
        ],
        Reply::Looked(looked) => [0, looked.clock, looked.granted, looked.ran, looked.idle, 0],
        Reply::Pending(count) => [0, (count & 0xffff_ffff) as u32, 0, 0, 0, 0],
        Reply::Refused(fault) => [
            fault.number(),
            fault.layer().number(),
            fault.place.0,
            fault.place.1,
            0,
            0,
        ],
    }
}
