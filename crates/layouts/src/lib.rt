// The layouts of OSNMA's messages: bits, headers, DSM-KROOT, DSM-PKR, MACK and the MAC look-up table. Nothing here has a state.
#![tactic(auto)]

pub mod bits;
pub mod dsm_header;
pub mod dsm_kroot;
pub mod dsm_pkr;
pub mod gst;
pub mod inav_page;
pub mod mack;
pub mod maclt;
pub mod nma_header;
pub mod numbers;
pub mod part;
pub mod refusal;
pub mod tag_info;
