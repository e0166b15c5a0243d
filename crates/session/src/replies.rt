// What an order or a line that cannot be taken is answered.

// 01: "refusal or 0, value opened or 0". A tape line that is taken is answered by no reply.
// The refusal is the number that is printed: 13 is no order's, so none of the machine's refusals says it.
#[derive(Clone, Copy)]
pub struct Reply {
    pub refusal: u64,
    pub value: u64,
}

// To a line that changes nothing. 01: "prints 13 as refusal".
pub const DECLINED: Reply = Reply {
    refusal: 13,
    value: 0,
};
