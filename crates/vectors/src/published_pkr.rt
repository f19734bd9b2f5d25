// A.7: the values of a DSM-PKR message, set into one of 13 blocks, the fewest that a key of 33 bytes fits into.
use crate::tally::Tally;
use crate::{found, published, recorded_pkr};
use layouts::dsm_pkr;
use std::io;
use texts::hexadecimal;

const NODE_0: [u8; 64] = *b"7CBE05D9970CFC9E22D0A43A340EF557624453A2E821AADEAC989C405D78BA06";

const NODE_1: [u8; 64] = *b"956380BAB0D2C939EC6208151040CCFFCF1FB7156178FD1255BA0AECAAA253F7";

const NODE_2: [u8; 64] = *b"407B6C5DD4DF059FF8789474061301E1C34881DB7A367A913A3674300E21EAB1";

const NODE_3: [u8; 64] = *b"24EF508389B7D446C3E2ECE8D459FBBD3239A794906F5B1F92469C640164FD87";

const KEY: [u8; 66] = *b"0303B2CE64BC207BDD8BC4DF859187FCB686320D63FFA091410FC158FBB77980EA";

const LEAF: [u8; 68] = *b"120303B2CE64BC207BDD8BC4DF859187FCB686320D63FFA091410FC158FBB77980EA";

// The padding is ours: the 6 bytes that are left.
const PADDING: [u8; 12] = *b"A1B2C3D4E5F6";

// NB_DP 7, which is ours, and message ID 1; the nodes; key type 1 and key ID 2; the key; the padding. Written apart from the
// values above, so that a slip of the pen in either shows.
const MESSAGE: [u8; 338] = *b"71\
    7CBE05D9970CFC9E22D0A43A340EF557624453A2E821AADEAC989C405D78BA06\
    956380BAB0D2C939EC6208151040CCFFCF1FB7156178FD1255BA0AECAAA253F7\
    407B6C5DD4DF059FF8789474061301E1C34881DB7A367A913A3674300E21EAB1\
    24EF508389B7D446C3E2ECE8D459FBBD3239A794906F5B1F92469C640164FD87\
    12\
    0303B2CE64BC207BDD8BC4DF859187FCB686320D63FFA091410FC158FBB77980EA\
    A1B2C3D4E5F6";

fn node<R: Print>(
    rt: &R,
    name: &str,
    msg: &[u8],
    n: usize,
    text: &[u8],
    t: Tally,
) -> io::Result<Tally> {
    let node = dsm_pkr::intermediate_tree_node(msg, n);
    let fits = node.is_ok_and(|node| hexadecimal::spells(text, &node.bytes));
    published::held(rt, name, fits, t)
}

fn nodes<R: Print>(rt: &R, msg: &[u8], t: Tally) -> io::Result<Tally> {
    let t = node(rt, "A.7 tree node 0", msg, 0, &NODE_0, t)?;
    let t = node(rt, "A.7 tree node 1", msg, 1, &NODE_1, t)?;
    let t = node(rt, "A.7 tree node 2", msg, 2, &NODE_2, t)?;
    node(rt, "A.7 tree node 3", msg, 3, &NODE_3, t)
}

fn numbers<R: Print>(rt: &R, msg: &[u8], t: Tally) -> io::Result<Tally> {
    let t = published::number(
        rt,
        "A.7 number of blocks",
        dsm_pkr::number_of_blocks(msg),
        13,
        t,
    )?;
    let t = published::number(rt, "A.7 message ID", dsm_pkr::message_id(msg), 1, t)?;
    let t = published::held(
        rt,
        "A.7 key type",
        recorded_pkr::key_type(msg) == found::value(1),
        t,
    )?;
    let t = published::number(rt, "A.7 key ID", dsm_pkr::new_public_key_id(msg), 2, t)?;
    published::number(rt, "A.7 key size", dsm_pkr::key_size(msg), 33, t)
}

fn parts<R: Print>(rt: &R, msg: &[u8], t: Tally) -> io::Result<Tally> {
    let t = published::bytes(
        rt,
        "A.7 new public key",
        dsm_pkr::new_public_key(msg),
        &KEY,
        t,
    )?;
    let t = published::bytes(
        rt,
        "A.7 Merkle tree leaf",
        dsm_pkr::merkle_tree_leaf(msg),
        &LEAF,
        t,
    )?;
    published::bytes(rt, "A.7 padding", dsm_pkr::padding(msg), &PADDING, t)
}

pub(crate) fn checks<R: Print>(rt: &R, t: Tally) -> io::Result<Tally> {
    let mut msg = [0u8; 169];
    let view: &mut [u8] = &mut msg;
    let _ = hexadecimal::read(view, 0, &MESSAGE);
    let t = numbers(rt, view, t)?;
    let t = nodes(rt, view, t)?;
    parts(rt, view, t)
}
