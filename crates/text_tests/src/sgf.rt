//! Texts of the format and the trees that they read as, and trees and the texts that they are written as.

use crate::expect::{expect_bytes, expect_count, expect_same, expect_text, expect_that};
use crate::narrow::Narrow;
use sgf_text::*;
use std::alloc::Global;
use std::process::Abort;

/// The fault of a text, if it has one.
fn fault_of(alloc: Global, text: &[u8]) -> Option<SgfFault> {
    read_tree(alloc, text).err()
}

fn expect_fault(rt: &impl Abort, found: Option<SgfFault>, wanted: Option<SgfFault>) {
    assert_eq!(rt; found, wanted);
}

/// The text and n copies of a piece after it.
fn repeated(rt: &impl Abort, alloc: Global, front: &[u8], piece: &[u8], n: usize) -> Vec<u8> {
    let mut text = front.to_vec(alloc).expect(rt, "memory");
    for _ in 0..n {
        text.extend_from_slice(piece).expect(rt, "memory");
    }
    text
}

/// What the text's first tree is written as.
fn written(rt: &impl Abort, alloc: Global, text: &[u8]) -> Vec<u8> {
    let (tree, _place) = read_tree(alloc, text).expect(rt, "a tree");
    let mut out = Vec::new(alloc);
    write_tree(&tree, &mut out).expect(rt, "memory");
    out
}

#[test]
fn reads_and_writes(rt: HostRuntime) {
    let alloc = rt.alloc();
    let rows: [(&[u8], &[u8]); 9] = [
        (b"(;AB[aa]AB[bb]C[a\\]b])", b"(;AB[aa][bb]C[a\\]b])"),
        (b"(;)", b"(;)"),
        (
            b"junk (x) ( \t\x0b\x0c\r\n;GaMe[1] SiZe [3:3]; B [] (;W[aa];B[bb]) (;W[cc]) ) rest",
            b"(;GM[1]SZ[3:3];B[](;W[aa];B[bb])(;W[cc]))",
        ),
        (b"(;C[a\\\\]N[x];;C[(;()])", b"(;C[a\\\\]N[x];;C[(;()])"),
        (b"(;A[1]B[2]A[3]C[4]B[5])(;X[])", b"(;A[1][3]B[2][5]C[4])"),
        (
            b"(\r\n;\r\nFF[4]\r\nC[two\r\nlines \xe9\xfc\x00]\r\n)\r\n",
            b"(;FF[4]C[two\r\nlines \xe9\xfc\x00])",
        ),
        (b"((;B[aa])", b"(;B[aa])"),
        // Names come back before and after the eighth.
        (
            b"(;A[1]B[2]C[3]D[4]E[5]F[6]G[7]H[8]I[9]J[10]A[11]H[12]I[13]J[14]K[15]K[16]J[17])",
            b"(;A[1][11]B[2]C[3]D[4]E[5]F[6]G[7]H[8][12]I[9][13]J[10][14][17]K[15][16])",
        ),
        // Values and names of 22 and 23 bytes.
        (
            b"(;C[abcdefghijklmnopqrstuv][abcdefghijklmnopqrstuvw]ABCDEFGHIJKLMNOPQRSTUV[]ABCDEFGHIJKLMNOPQRSTUVW[])",
            b"(;C[abcdefghijklmnopqrstuv][abcdefghijklmnopqrstuvw]ABCDEFGHIJKLMNOPQRSTUV[]ABCDEFGHIJKLMNOPQRSTUVW[])",
        ),
    ];
    for (text, out) in rows {
        expect_bytes(&rt, written(&rt, alloc, text).as_slice(), out);
        expect_bytes(&rt, written(&rt, alloc, out).as_slice(), out);
    }
}

#[test]
fn gives_the_place_behind_the_tree(rt: HostRuntime) {
    let alloc = rt.alloc();
    expect_count(
        &rt,
        read_tree(alloc, b"(;AB[aa]AB[bb]C[a\\]b])")
            .expect(&rt, "memory")
            .1,
        22,
    );
    expect_count(&rt, read_tree(alloc, b"x(;)(;)").expect(&rt, "memory").1, 4);
}

#[test]
fn cuts_off_each_front(rt: HostRuntime) {
    let alloc = rt.alloc();
    let text = b"(;FF[4]GM[1]SZ[3]AB[aa];B[bb](;W[cc])(;W[ba]C[a\\]b]))";
    expect_that(&rt, fault_of(alloc, text).is_none());
    for end in 2..text.len() {
        expect_fault(
            &rt,
            fault_of(alloc, &text[..end]),
            Some(SgfFault::Syntax { at: end }),
        );
    }
}

#[test]
fn keeps_the_limits(rt: HostRuntime) {
    let alloc = rt.alloc();
    let deep = repeated(&rt, alloc, b"", b"(;", 1000);
    expect_fault(
        &rt,
        fault_of(alloc, deep.as_slice()),
        Some(SgfFault::Syntax { at: 2000 }),
    );
    let deeper = repeated(&rt, alloc, deep.as_slice(), b"(;", 1);
    expect_fault(
        &rt,
        fault_of(alloc, deeper.as_slice()),
        Some(SgfFault::TooDeep),
    );
    let many = repeated(&rt, alloc, b"(", b";", 100_001);
    expect_fault(
        &rt,
        fault_of(alloc, many.as_slice()),
        Some(SgfFault::TooMany),
    );
}

#[test]
fn keeps_the_limit_of_bytes(rt: HostRuntime) {
    let alloc = rt.alloc();
    // Five bytes begin the value, so that the text has 1,048,576 bytes and is cut off there.
    let cut = repeated(&rt, alloc, b"(;CC[", b"a", 1_048_571);
    expect_fault(
        &rt,
        fault_of(alloc, cut.as_slice()),
        Some(SgfFault::Syntax { at: 1_048_576 }),
    );
    let long = repeated(&rt, alloc, cut.as_slice(), b"a", 1);
    expect_fault(
        &rt,
        fault_of(alloc, long.as_slice()),
        Some(SgfFault::TooLong),
    );
    // A whole tree that ends with the last byte that is read.
    let most = repeated(&rt, alloc, b"(;CC[", b"a", 1_048_569);
    let whole = repeated(&rt, alloc, most.as_slice(), b"])(;", 1);
    expect_count(
        &rt,
        read_tree(alloc, whole.as_slice()).expect(&rt, "a tree").1,
        1_048_576,
    );
    // A byte more, and the tree ends too late.
    let more = repeated(&rt, alloc, b"(;CC[", b"a", 1_048_570);
    let late = repeated(&rt, alloc, more.as_slice(), b"])", 1);
    expect_fault(
        &rt,
        fault_of(alloc, late.as_slice()),
        Some(SgfFault::TooLong),
    );
    // A ";" past the bytes that are read begins no tree.
    let far = repeated(&rt, alloc, b"(", b" ", 1_048_575);
    let none = repeated(&rt, alloc, far.as_slice(), b";)", 1);
    expect_fault(
        &rt,
        fault_of(alloc, none.as_slice()),
        Some(SgfFault::NoTree),
    );
}

#[test]
fn holds_deep_and_long_trees(rt: HostRuntime) {
    let alloc = rt.alloc();
    let open = repeated(&rt, alloc, b"", b"(;", 1000);
    let deep = repeated(&rt, alloc, open.as_slice(), b")", 1000);
    expect_that(
        &rt,
        written(&rt, alloc, deep.as_slice()).as_slice() == deep.as_slice(),
    );
    let nodes = repeated(&rt, alloc, b"(", b";B[aa]", 100_000);
    let long = repeated(&rt, alloc, nodes.as_slice(), b")", 1);
    expect_that(
        &rt,
        written(&rt, alloc, long.as_slice()).as_slice() == long.as_slice(),
    );
}

/// A node with this many properties of different names, each with one empty value.
fn many_names(rt: &impl Abort, alloc: Global, n: usize) -> Vec<u8> {
    let mut text = b"(;".to_vec(alloc).expect(rt, "memory");
    for i in 0..n {
        for unit in [1, 26, 676, 17_576] {
            text.push(b"ABCDEFGHIJKLMNOPQRSTUVWXYZ"[i / unit % 26])
                .expect(rt, "memory");
        }
        text.extend_from_slice(b"[]").expect(rt, "memory");
    }
    text.push(b')').expect(rt, "memory");
    text
}

#[test]
fn reads_many_names(rt: HostRuntime) {
    let alloc = rt.alloc();
    let text = many_names(&rt, alloc, 170_000);
    expect_that(
        &rt,
        written(&rt, alloc, text.as_slice()).as_slice() == text.as_slice(),
    );
}

#[test]
fn cuts_into_tokens(rt: HostRuntime) {
    let text = b"( ;GaMe[1\\]\\\\]x!B [ab\\]";
    let wanted: [(TokenKind, usize, &[u8]); 8] = [
        (TokenKind::Open, 0, b"("),
        (TokenKind::Semicolon, 2, b";"),
        (TokenKind::Ident, 3, b"GaMe"),
        (TokenKind::Value, 7, b"[1\\]\\\\]"),
        (TokenKind::Ident, 14, b"x"),
        (TokenKind::Other, 15, b"!"),
        (TokenKind::Ident, 16, b"B"),
        (TokenKind::Value, 18, b"[ab\\]"),
    ];
    for (token, (kind, at, part)) in tokens(text).zip(wanted) {
        expect_same(&rt, token.kind, kind);
        expect_count(&rt, token.at, at);
        expect_bytes(&rt, token.text, part);
    }
    expect_count(&rt, tokens(text).count(), 8);
}

#[test]
fn leaves_a_front_where_writing_fails(rt: HostRuntime) {
    let alloc = rt.alloc();
    let text = b"(;AB[aa][bb]C[a\\]b](;W[cc])(;W[ba]))";
    let (tree, _place) = read_tree(alloc, text).expect(&rt, "a tree");
    for room in 0..text.len() {
        let mut narrow = Narrow {
            taken: Vec::new(alloc),
            piece: 3,
            room,
            fails: false,
        };
        expect_same(&rt, write_tree(&tree, &mut narrow), Err(WriteFault::Write));
        expect_bytes(&rt, narrow.taken.as_slice(), &text[..room]);
    }
    let mut narrow = Narrow {
        taken: Vec::new(alloc),
        piece: 3,
        room: 1000,
        fails: false,
    };
    expect_same(&rt, write_tree(&tree, &mut narrow), Ok(()));
    expect_bytes(&rt, narrow.taken.as_slice(), text.as_slice());
}

fn property(rt: &impl Abort, alloc: Global, ident: &[u8], values: &[&[u8]]) -> Property {
    let mut all = Vec::new(alloc);
    for value in values {
        all.push(Bytes::from_vec(value.to_vec(alloc).expect(rt, "memory")))
            .expect(rt, "memory");
    }
    Property {
        ident: Bytes::from_vec(ident.to_vec(alloc).expect(rt, "memory")),
        values: Values::from_vec(all),
    }
}

fn is_node_of(rt: &impl Abort, alloc: Global, ident: &[u8], values: &[&[u8]]) -> bool {
    let mut list = Vec::new(alloc);
    list.push(property(rt, alloc, b"AB", &[b"aa", b"a\\]"]))
        .expect(rt, "memory");
    list.push(property(rt, alloc, ident, values))
        .expect(rt, "memory");
    SgfNode::new(list).is_some()
}

#[test]
fn makes_nodes_of_good_properties_alone(rt: HostRuntime) {
    let alloc = rt.alloc();
    expect_that(&rt, is_node_of(&rt, alloc, b"A", &[b""]));
    expect_that(&rt, is_node_of(&rt, alloc, b"C", &[b"x\\\\", b"[("]));
    expect_that(&rt, !is_node_of(&rt, alloc, b"AB", &[b"cc"]));
    expect_that(&rt, !is_node_of(&rt, alloc, b"", &[b"cc"]));
    expect_that(&rt, !is_node_of(&rt, alloc, b"Ab", &[b"cc"]));
    expect_that(&rt, !is_node_of(&rt, alloc, b"C", &[]));
    expect_that(&rt, !is_node_of(&rt, alloc, b"C", &[b"a]"]));
    expect_that(&rt, !is_node_of(&rt, alloc, b"C", &[b"a\\"]));
    expect_that(&rt, SgfNode::new(Vec::new(alloc)).is_some());
}

#[test]
fn makes_trees_with_a_node_alone(rt: HostRuntime) {
    let alloc = rt.alloc();
    expect_that(&rt, Tree::new(Vec::new(alloc), Vec::new(alloc)).is_none());
    let mut nodes = Vec::new(alloc);
    nodes
        .push(
            SgfNode::new(Vec::new(alloc))
                .ok_or("a node")
                .expect(&rt, "memory"),
        )
        .expect(&rt, "memory");
    let tree = Tree::new(nodes, Vec::new(alloc))
        .ok_or("a tree")
        .expect(&rt, "memory");
    expect_count(&rt, tree.nodes().len(), 1);
    expect_count(&rt, tree.children().len(), 0);
}

#[test]
fn prints_faults(rt: HostRuntime) {
    let alloc = rt.alloc();
    let rows = [
        (SgfFault::NoTree, "no tree"),
        (SgfFault::Syntax { at: 3 }, "syntax at 3"),
        (SgfFault::TooLong, "too long"),
        (SgfFault::TooDeep, "too deep"),
        (SgfFault::TooMany, "too many nodes"),
        (SgfFault::Memory, "memory"),
    ];
    for (fault, text) in rows {
        expect_text(
            &rt,
            format!(in alloc; "{fault}").expect(&rt, "memory").as_str(),
            text,
        );
    }
    expect_text(
        &rt,
        format!(in alloc; "{}", WriteFault::Write)
            .expect(&rt, "memory")
            .as_str(),
        "write",
    );
}
