// What the host writes, the device reads back, and what the device replies, the host reads back: no code, two theorems.
// They stand in proofs/ReadsBack.antt and proofs/ReplyReadsBack.antt.
#![tactic(auto)]
