//! Words, decoded and encoded.
use casm_word::{Flags, Shape, Word, WordFault, decode, encode};

/// The flags whose bits are listed.
fn flags(bits: &[u8]) -> Flags {
    Flags {
        dst_fp: bits.contains(&48),
        op0_fp: bits.contains(&49),
        op1_imm: bits.contains(&50),
        op1_fp: bits.contains(&51),
        op1_ap: bits.contains(&52),
        res_add: bits.contains(&53),
        res_mul: bits.contains(&54),
        pc_abs: bits.contains(&55),
        pc_rel: bits.contains(&56),
        pc_jnz: bits.contains(&57),
        ap_add: bits.contains(&58),
        ap_add1: bits.contains(&59),
        op_call: bits.contains(&60),
        op_ret: bits.contains(&61),
        op_assert: bits.contains(&62),
    }
}

/// A number, and the three offsets and the bits of the word that it says.
const WORDS: &[(u64, i16, i16, i16, &[u8])] = &[
    // `ret`, `call rel imm`, `jmp rel imm`, `ap += imm`
    (0x208b7fff7fff7ffe, -2, -1, -1, &[48, 49, 51, 55, 61]),
    (0x1104800180018000, 0, 1, 1, &[50, 56, 60]),
    (0x010780017fff7fff, -1, -1, 1, &[48, 49, 50, 56]),
    (0x040780017fff7fff, -1, -1, 1, &[48, 49, 50, 58]),
    // `jmp rel imm if [fp - 3] != 0`, `jmp rel imm if [ap - 1] != 0`
    (0x020780017fff7ffd, -3, -1, 1, &[48, 49, 50, 57]),
    (0x020680017fff7fff, -1, -1, 1, &[49, 50, 57]),
    // `[ap] = imm; ap++`, `[ap] = [[fp]]; ap++`, `[ap - 1] = [[fp]]`, `[ap - 2] = [[ap - 3]]`
    (0x480680017fff8000, 0, -1, 1, &[49, 50, 59, 62]),
    (0x4802800080008000, 0, 0, 0, &[49, 59, 62]),
    (0x4002800080007fff, -1, 0, 0, &[49, 62]),
    (0x400080007ffd7ffe, -2, -3, 0, &[62]),
    // `[ap - 2] = [[fp - 4]]`, `[ap] = [fp] + imm; ap++`, the same with `[fp - 4]` and with `[ap - 3]`
    (0x400280007ffc7ffe, -2, -4, 0, &[49, 62]),
    (0x4826800180008000, 0, 0, 1, &[49, 50, 53, 59, 62]),
    (0x482680017ffc8000, 0, -4, 1, &[49, 50, 53, 59, 62]),
    (0x482480017ffd8000, 0, -3, 1, &[50, 53, 59, 62]),
    // `[ap] = [fp - 3]; ap++`, `[ap] = [ap - 4]; ap++`
    (0x480a7ffd7fff8000, 0, -1, -3, &[49, 51, 59, 62]),
    (0x48127ffc7fff8000, 0, -1, -4, &[49, 52, 59, 62]),
    // the least and the greatest offsets, the product, and a conditional jump that adds 1 to ap
    (0x0000ffff0000ffff, 32767, -32768, 32767, &[]),
    (0x40000000ffff0000, -32768, 32767, -32768, &[62]),
    (0x0040800080008000, 0, 0, 0, &[54]),
    (0x0a00800080008000, 0, 0, 0, &[57, 59]),
];

#[test]
fn decodes_and_encodes_words(rt: HostRuntime) {
    for (number, off_dst, off_op0, off_op1, bits) in WORDS {
        let word = Word {
            off_dst: *off_dst,
            off_op0: *off_op0,
            off_op1: *off_op1,
            flags: flags(bits),
        };
        assert!(rt; decode(*number) == Ok(word), "{number:#x}");
        assert!(rt; encode(&word) == *number, "{number:#x}");
    }
}

/// The three offsets, all the same, the bits of undefined flags, and the word's number.
const UNDEFINED: &[(i16, &[u8], u64)] = &[
    (0, &[53, 54], 0x0060_8000_8000_8000),
    (0, &[48, 62], 0x4001_8000_8000_8000),
    (-32768, &[60, 61, 62], 0x7000_0000_0000_0000),
    (
        32767,
        &[48, 49, 50, 51, 52, 53, 54, 55, 56, 57, 58, 59, 60, 61, 62],
        0x7fff_ffff_ffff_ffff,
    ),
];

#[test]
fn encodes_undefined_flags(rt: HostRuntime) {
    for (offset, bits, number) in UNDEFINED {
        let word = Word {
            off_dst: *offset,
            off_op0: *offset,
            off_op1: *offset,
            flags: flags(bits),
        };
        assert!(rt; encode(&word) == *number, "{number:#x}");
    }
}

/// The flags of a word from bit 48 on, and the first shape that they break.
const BROKEN: &[(u64, Shape)] = &[
    (0b000_0000_0000_1100, Shape::Op1),
    (0b000_0000_0001_0100, Shape::Op1),
    (0b000_0000_0001_1000, Shape::Op1),
    (0b111_1111_1111_1111, Shape::Op1),
    (0b000_0000_0110_0000, Shape::Res),
    (0b000_0010_0010_0000, Shape::Res),
    (0b000_0010_0100_0000, Shape::Res),
    (0b111_1111_1110_0111, Shape::Res),
    (0b000_0001_1000_0000, Shape::Pc),
    (0b000_0010_1000_0000, Shape::Pc),
    (0b000_0011_0000_0000, Shape::Pc),
    (0b111_1111_1000_0111, Shape::Pc),
    (0b011_0000_0000_0000, Shape::Opcode),
    (0b101_0000_0000_0000, Shape::Opcode),
    (0b110_0000_0000_0000, Shape::Opcode),
    (0b111_1110_0000_0111, Shape::Opcode),
    (0b000_1100_0000_0000, Shape::ApBoth),
    (0b001_1110_0000_0111, Shape::ApBoth),
    (0b001_0010_0000_0000, Shape::JnzOpcode),
    (0b010_0010_0000_0000, Shape::JnzOpcode),
    (0b100_0110_0000_0000, Shape::JnzOpcode),
    (0b000_0110_0000_0000, Shape::JnzAp),
    (0b001_0100_0000_0000, Shape::CallAp),
    (0b001_1000_0000_0000, Shape::CallAp),
];

#[test]
fn tells_the_first_fault(rt: HostRuntime) {
    for (flags, shape) in BROKEN {
        let number = *flags << 48;
        let fault = decode(number);
        assert!(rt; fault == Err(WordFault::Undefined(*shape)), "{number:#x}");
        let with_bit_63 = decode(number | 0x8000_0000_0000_0000);
        assert!(rt; with_bit_63 == Err(WordFault::HighBit), "{number:#x}");
    }
    assert!(rt; decode(0x8000_0000_0000_0000) == Err(WordFault::HighBit));
}
