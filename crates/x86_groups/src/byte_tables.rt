//! The rows of opcode bytes without a legacy prefix, by the byte: what follows it, the numbers of its operation and of
//! its register, the operands, and the two memory sizes.
//!
//! Written by tools/tables.py from the rows of the maps and of the forms.
//! The proof doesn't rest on that script: a wrong entry is refused.
use crate::bytes::Choice::{Cells, Memory, Register, Search};
use crate::bytes::Next::{Chosen, Either, Nothing};
use crate::bytes::{ByteRow, direct, other};
use x86_operands::vocabulary::OperandEncoding::{
    ConstantU8, I8, I32, Implied, Ip, Iv, Ivq, U8, U16,
};
use x86_operands::vocabulary::{OperandEncoding, RegisterSlot};
use x86_regs::RegisterClass;

const ABSENT: OperandEncoding = OperandEncoding::ABSENT;

const UNSIGNED_ONE: OperandEncoding = ConstantU8(1);

const THREE: OperandEncoding = ConstantU8(3);

/// The opcode bytes that follow no escape.
pub(crate) const ONE: &[ByteRow; 256] = &[
    direct!(Either; 1 0; E_G B false B ABSENT, ABSENT; One One), // 00 ADD
    direct!(Either; 1 0; E_G V false V ABSENT, ABSENT; V V), // 01 ADD
    direct!(Either; 1 0; G_E B false B ABSENT, ABSENT; One One), // 02 ADD
    direct!(Either; 1 0; G_E V false V ABSENT, ABSENT; V V), // 03 ADD
    direct!(Nothing; 1 0; R_I B false B I8, ABSENT; Zero Zero), // 04 ADD
    direct!(Nothing; 1 0; R_I V false B Iv, ABSENT; Zero Zero), // 05 ADD
    other!(Chosen(Search)), // 06
    other!(Chosen(Search)), // 07
    direct!(Either; 2 0; E_G B false B ABSENT, ABSENT; One One), // 08 OR
    direct!(Either; 2 0; E_G V false V ABSENT, ABSENT; V V), // 09 OR
    direct!(Either; 2 0; G_E B false B ABSENT, ABSENT; One One), // 0A OR
    direct!(Either; 2 0; G_E V false V ABSENT, ABSENT; V V), // 0B OR
    direct!(Nothing; 2 0; R_I B false B I8, ABSENT; Zero Zero), // 0C OR
    direct!(Nothing; 2 0; R_I V false B Iv, ABSENT; Zero Zero), // 0D OR
    other!(Chosen(Search)), // 0E
    other!(Chosen(Search)), // 0F
    direct!(Either; 3 0; E_G B false B ABSENT, ABSENT; One One), // 10 ADC
    direct!(Either; 3 0; E_G V false V ABSENT, ABSENT; V V), // 11 ADC
    direct!(Either; 3 0; G_E B false B ABSENT, ABSENT; One One), // 12 ADC
    direct!(Either; 3 0; G_E V false V ABSENT, ABSENT; V V), // 13 ADC
    direct!(Nothing; 3 0; R_I B false B I8, ABSENT; Zero Zero), // 14 ADC
    direct!(Nothing; 3 0; R_I V false B Iv, ABSENT; Zero Zero), // 15 ADC
    other!(Chosen(Search)), // 16
    other!(Chosen(Search)), // 17
    direct!(Either; 4 0; E_G B false B ABSENT, ABSENT; One One), // 18 SBB
    direct!(Either; 4 0; E_G V false V ABSENT, ABSENT; V V), // 19 SBB
    direct!(Either; 4 0; G_E B false B ABSENT, ABSENT; One One), // 1A SBB
    direct!(Either; 4 0; G_E V false V ABSENT, ABSENT; V V), // 1B SBB
    direct!(Nothing; 4 0; R_I B false B I8, ABSENT; Zero Zero), // 1C SBB
    direct!(Nothing; 4 0; R_I V false B Iv, ABSENT; Zero Zero), // 1D SBB
    other!(Chosen(Search)), // 1E
    other!(Chosen(Search)), // 1F
    direct!(Either; 5 0; E_G B false B ABSENT, ABSENT; One One), // 20 AND
    direct!(Either; 5 0; E_G V false V ABSENT, ABSENT; V V), // 21 AND
    direct!(Either; 5 0; G_E B false B ABSENT, ABSENT; One One), // 22 AND
    direct!(Either; 5 0; G_E V false V ABSENT, ABSENT; V V), // 23 AND
    direct!(Nothing; 5 0; R_I B false B I8, ABSENT; Zero Zero), // 24 AND
    direct!(Nothing; 5 0; R_I V false B Iv, ABSENT; Zero Zero), // 25 AND
    other!(Chosen(Search)), // 26
    other!(Chosen(Search)), // 27
    direct!(Either; 6 0; E_G B false B ABSENT, ABSENT; One One), // 28 SUB
    direct!(Either; 6 0; E_G V false V ABSENT, ABSENT; V V), // 29 SUB
    direct!(Either; 6 0; G_E B false B ABSENT, ABSENT; One One), // 2A SUB
    direct!(Either; 6 0; G_E V false V ABSENT, ABSENT; V V), // 2B SUB
    direct!(Nothing; 6 0; R_I B false B I8, ABSENT; Zero Zero), // 2C SUB
    direct!(Nothing; 6 0; R_I V false B Iv, ABSENT; Zero Zero), // 2D SUB
    other!(Chosen(Search)), // 2E
    other!(Chosen(Search)), // 2F
    direct!(Either; 7 0; E_G B false B ABSENT, ABSENT; One One), // 30 XOR
    direct!(Either; 7 0; E_G V false V ABSENT, ABSENT; V V), // 31 XOR
    direct!(Either; 7 0; G_E B false B ABSENT, ABSENT; One One), // 32 XOR
    direct!(Either; 7 0; G_E V false V ABSENT, ABSENT; V V), // 33 XOR
    direct!(Nothing; 7 0; R_I B false B I8, ABSENT; Zero Zero), // 34 XOR
    direct!(Nothing; 7 0; R_I V false B Iv, ABSENT; Zero Zero), // 35 XOR
    other!(Chosen(Search)), // 36
    other!(Chosen(Search)), // 37
    direct!(Either; 8 0; E_G B false B ABSENT, ABSENT; One One), // 38 CMP
    direct!(Either; 8 0; E_G V false V ABSENT, ABSENT; V V), // 39 CMP
    direct!(Either; 8 0; G_E B false B ABSENT, ABSENT; One One), // 3A CMP
    direct!(Either; 8 0; G_E V false V ABSENT, ABSENT; V V), // 3B CMP
    direct!(Nothing; 8 0; R_I B false B I8, ABSENT; Zero Zero), // 3C CMP
    direct!(Nothing; 8 0; R_I V false B Iv, ABSENT; Zero Zero), // 3D CMP
    other!(Chosen(Search)), // 3E
    other!(Chosen(Search)), // 3F
    other!(Chosen(Search)), // 40
    other!(Chosen(Search)), // 41
    other!(Chosen(Search)), // 42
    other!(Chosen(Search)), // 43
    other!(Chosen(Search)), // 44
    other!(Chosen(Search)), // 45
    other!(Chosen(Search)), // 46
    other!(Chosen(Search)), // 47
    other!(Chosen(Search)), // 48
    other!(Chosen(Search)), // 49
    other!(Chosen(Search)), // 4A
    other!(Chosen(Search)), // 4B
    other!(Chosen(Search)), // 4C
    other!(Chosen(Search)), // 4D
    other!(Chosen(Search)), // 4E
    other!(Chosen(Search)), // 4F
    direct!(Nothing; 9 0; R Vq true B ABSENT, ABSENT; Eight Eight), // 50 PUSH
    direct!(Nothing; 9 1; R Vq true B ABSENT, ABSENT; Eight Eight), // 51 PUSH
    direct!(Nothing; 9 2; R Vq true B ABSENT, ABSENT; Eight Eight), // 52 PUSH
    direct!(Nothing; 9 3; R Vq true B ABSENT, ABSENT; Eight Eight), // 53 PUSH
    direct!(Nothing; 9 4; R Vq true B ABSENT, ABSENT; Eight Eight), // 54 PUSH
    direct!(Nothing; 9 5; R Vq true B ABSENT, ABSENT; Eight Eight), // 55 PUSH
    direct!(Nothing; 9 6; R Vq true B ABSENT, ABSENT; Eight Eight), // 56 PUSH
    direct!(Nothing; 9 7; R Vq true B ABSENT, ABSENT; Eight Eight), // 57 PUSH
    direct!(Nothing; 10 0; R Vq true B ABSENT, ABSENT; Eight Eight), // 58 POP
    direct!(Nothing; 10 1; R Vq true B ABSENT, ABSENT; Eight Eight), // 59 POP
    direct!(Nothing; 10 2; R Vq true B ABSENT, ABSENT; Eight Eight), // 5A POP
    direct!(Nothing; 10 3; R Vq true B ABSENT, ABSENT; Eight Eight), // 5B POP
    direct!(Nothing; 10 4; R Vq true B ABSENT, ABSENT; Eight Eight), // 5C POP
    direct!(Nothing; 10 5; R Vq true B ABSENT, ABSENT; Eight Eight), // 5D POP
    direct!(Nothing; 10 6; R Vq true B ABSENT, ABSENT; Eight Eight), // 5E POP
    direct!(Nothing; 10 7; R Vq true B ABSENT, ABSENT; Eight Eight), // 5F POP
    other!(Chosen(Search)), // 60
    other!(Chosen(Search)), // 61
    other!(Chosen(Search)), // 62
    direct!(Either; 11 0; G_E Q false D ABSENT, ABSENT; Four V), // 63 MOVSXD
    other!(Chosen(Search)), // 64
    other!(Chosen(Search)), // 65
    other!(Chosen(Search)), // 66
    other!(Chosen(Search)), // 67
    direct!(Nothing; 9 0; I B false B Ip, ABSENT; Eight Eight), // 68 PUSH
    direct!(Either; 12 0; G_E_I V false V Iv, ABSENT; V V), // 69 IMUL
    direct!(Nothing; 9 0; I B false B I8, ABSENT; Eight Eight), // 6A PUSH
    direct!(Either; 12 0; G_E_I V false V I8, ABSENT; V V), // 6B IMUL
    other!(Chosen(Search)), // 6C INS
    other!(Chosen(Search)), // 6D INS
    other!(Chosen(Search)), // 6E OUTS
    other!(Chosen(Search)), // 6F OUTS
    direct!(Nothing; 15 0; I B false B I8, ABSENT; Zero Zero), // 70 JO
    direct!(Nothing; 16 0; I B false B I8, ABSENT; Zero Zero), // 71 JNO
    direct!(Nothing; 17 0; I B false B I8, ABSENT; Zero Zero), // 72 JB
    direct!(Nothing; 18 0; I B false B I8, ABSENT; Zero Zero), // 73 JNB
    direct!(Nothing; 19 0; I B false B I8, ABSENT; Zero Zero), // 74 JZ
    direct!(Nothing; 20 0; I B false B I8, ABSENT; Zero Zero), // 75 JNZ
    direct!(Nothing; 21 0; I B false B I8, ABSENT; Zero Zero), // 76 JNA
    direct!(Nothing; 22 0; I B false B I8, ABSENT; Zero Zero), // 77 JA
    direct!(Nothing; 23 0; I B false B I8, ABSENT; Zero Zero), // 78 JS
    direct!(Nothing; 24 0; I B false B I8, ABSENT; Zero Zero), // 79 JNS
    direct!(Nothing; 25 0; I B false B I8, ABSENT; Zero Zero), // 7A JP
    direct!(Nothing; 26 0; I B false B I8, ABSENT; Zero Zero), // 7B JNP
    direct!(Nothing; 27 0; I B false B I8, ABSENT; Zero Zero), // 7C JL
    direct!(Nothing; 28 0; I B false B I8, ABSENT; Zero Zero), // 7D JGE
    direct!(Nothing; 29 0; I B false B I8, ABSENT; Zero Zero), // 7E JLE
    direct!(Nothing; 30 0; I B false B I8, ABSENT; Zero Zero), // 7F JG
    other!(Chosen(Cells(57))), // 80 80
    other!(Chosen(Cells(58))), // 81 81
    other!(Chosen(Search)), // 82
    other!(Chosen(Cells(59))), // 83 83
    direct!(Either; 31 0; E_G B false B ABSENT, ABSENT; One One), // 84 TEST
    direct!(Either; 31 0; E_G V false V ABSENT, ABSENT; V V), // 85 TEST
    direct!(Either; 32 0; E_G B false B ABSENT, ABSENT; One One), // 86 XCHG
    direct!(Either; 32 0; E_G V false V ABSENT, ABSENT; V V), // 87 XCHG
    direct!(Either; 33 0; E_G B false B ABSENT, ABSENT; One One), // 88 MOV
    direct!(Either; 33 0; E_G V false V ABSENT, ABSENT; V V), // 89 MOV
    direct!(Either; 33 0; G_E B false B ABSENT, ABSENT; One One), // 8A MOV
    direct!(Either; 33 0; G_E V false V ABSENT, ABSENT; V V), // 8B MOV
    other!(Chosen(Search)), // 8C MOV
    direct!(Chosen(Memory); 34 0; G_E V false Q ABSENT, ABSENT; V V), // 8D LEA
    other!(Chosen(Search)), // 8E MOV
    other!(Chosen(Cells(63))), // 8F 8f
    other!(Chosen(Search)), // 90 XCHG
    other!(Chosen(Search)), // 91 XCHG
    other!(Chosen(Search)), // 92 XCHG
    other!(Chosen(Search)), // 93 XCHG
    other!(Chosen(Search)), // 94 XCHG
    other!(Chosen(Search)), // 95 XCHG
    other!(Chosen(Search)), // 96 XCHG
    other!(Chosen(Search)), // 97 XCHG
    other!(Chosen(Search)), // 98 CVT_AA
    other!(Chosen(Search)), // 99 CVT_DA
    other!(Chosen(Search)), // 9A
    direct!(Nothing; 35 0; NO B false B ABSENT, ABSENT; Zero Zero), // 9B WAIT
    direct!(Nothing; 36 0; NO B false B ABSENT, ABSENT; Eight Eight), // 9C PUSHF
    direct!(Nothing; 37 0; NO B false B ABSENT, ABSENT; Eight Eight), // 9D POPF
    direct!(Nothing; 38 0; NO B false B ABSENT, ABSENT; Zero Zero), // 9E SAHF
    direct!(Nothing; 39 0; NO B false B ABSENT, ABSENT; Zero Zero), // 9F LAHF
    other!(Chosen(Search)), // A0 MOV
    other!(Chosen(Search)), // A1 MOV
    other!(Chosen(Search)), // A2 MOV
    other!(Chosen(Search)), // A3 MOV
    other!(Chosen(Search)), // A4 MOVS
    other!(Chosen(Search)), // A5 MOVS
    other!(Chosen(Search)), // A6 CMPS
    other!(Chosen(Search)), // A7 CMPS
    direct!(Nothing; 31 0; R_I B false B I8, ABSENT; Zero Zero), // A8 TEST
    direct!(Nothing; 31 0; R_I V false B Iv, ABSENT; Zero Zero), // A9 TEST
    other!(Chosen(Search)), // AA STOS
    other!(Chosen(Search)), // AB STOS
    other!(Chosen(Search)), // AC LODS
    other!(Chosen(Search)), // AD LODS
    other!(Chosen(Search)), // AE SCAS
    other!(Chosen(Search)), // AF SCAS
    direct!(Nothing; 33 0; R_I B true B U8, ABSENT; Zero Zero), // B0 MOV
    direct!(Nothing; 33 1; R_I B true B U8, ABSENT; Zero Zero), // B1 MOV
    direct!(Nothing; 33 2; R_I B true B U8, ABSENT; Zero Zero), // B2 MOV
    direct!(Nothing; 33 3; R_I B true B U8, ABSENT; Zero Zero), // B3 MOV
    direct!(Nothing; 33 4; R_I B true B U8, ABSENT; Zero Zero), // B4 MOV
    direct!(Nothing; 33 5; R_I B true B U8, ABSENT; Zero Zero), // B5 MOV
    direct!(Nothing; 33 6; R_I B true B U8, ABSENT; Zero Zero), // B6 MOV
    direct!(Nothing; 33 7; R_I B true B U8, ABSENT; Zero Zero), // B7 MOV
    direct!(Nothing; 33 0; R_I V true B Ivq, ABSENT; Zero Zero), // B8 MOV
    direct!(Nothing; 33 1; R_I V true B Ivq, ABSENT; Zero Zero), // B9 MOV
    direct!(Nothing; 33 2; R_I V true B Ivq, ABSENT; Zero Zero), // BA MOV
    direct!(Nothing; 33 3; R_I V true B Ivq, ABSENT; Zero Zero), // BB MOV
    direct!(Nothing; 33 4; R_I V true B Ivq, ABSENT; Zero Zero), // BC MOV
    direct!(Nothing; 33 5; R_I V true B Ivq, ABSENT; Zero Zero), // BD MOV
    direct!(Nothing; 33 6; R_I V true B Ivq, ABSENT; Zero Zero), // BE MOV
    direct!(Nothing; 33 7; R_I V true B Ivq, ABSENT; Zero Zero), // BF MOV
    other!(Chosen(Cells(78))), // C0 c0
    other!(Chosen(Cells(79))), // C1 c1
    direct!(Nothing; 45 0; I B false B U16, ABSENT; Eight Eight), // C2 RETURN
    direct!(Nothing; 45 0; NO B false B ABSENT, ABSENT; Eight Eight), // C3 RETURN
    other!(Chosen(Search)), // C4
    other!(Chosen(Search)), // C5
    other!(Chosen(Cells(81))), // C6 c6
    other!(Chosen(Cells(82))), // C7 c7
    other!(Chosen(Search)), // C8 ENTER
    direct!(Nothing; 47 0; NO B false B ABSENT, ABSENT; Eight Eight), // C9 LEAVE
    direct!(Nothing; 48 0; I B false B U16, ABSENT; Ten Ten), // CA RETF
    direct!(Nothing; 48 0; NO B false B ABSENT, ABSENT; Ten Ten), // CB RETF
    direct!(Nothing; 49 0; I B false B THREE, ABSENT; Zero Zero), // CC INT
    direct!(Nothing; 49 0; I B false B U8, ABSENT; Zero Zero), // CD INT
    other!(Chosen(Search)), // CE
    other!(Chosen(Search)), // CF Fw
    other!(Chosen(Cells(87))), // D0 d0
    other!(Chosen(Cells(88))), // D1 d1
    other!(Chosen(Cells(89))), // D2 d2
    other!(Chosen(Cells(90))), // D3 d3
    other!(Chosen(Search)), // D4
    other!(Chosen(Search)), // D5
    other!(Chosen(Search)), // D6
    direct!(Nothing; 50 0; NO B false B ABSENT, ABSENT; One One), // D7 XLAT
    other!(Chosen(Cells(91))), // D8 d8
    other!(Chosen(Cells(92))), // D9 d9
    other!(Chosen(Cells(93))), // DA da
    other!(Chosen(Cells(94))), // DB db
    other!(Chosen(Cells(95))), // DC dc
    other!(Chosen(Cells(96))), // DD dd
    other!(Chosen(Cells(97))), // DE de
    other!(Chosen(Cells(98))), // DF df
    direct!(Nothing; 51 0; I B false B I8, ABSENT; Zero Zero), // E0 LOOPNZ
    direct!(Nothing; 52 0; I B false B I8, ABSENT; Zero Zero), // E1 LOOPZ
    direct!(Nothing; 53 0; I B false B I8, ABSENT; Zero Zero), // E2 LOOP
    other!(Chosen(Search)), // E3 JRCXZ
    direct!(Nothing; 56 0; R_I B false B U8, ABSENT; Zero Zero), // E4 IN
    direct!(Nothing; 56 0; R_I Vd false B U8, ABSENT; Zero Zero), // E5 IN
    direct!(Nothing; 57 0; I_R B false B U8, ABSENT; Zero Zero), // E6 OUT
    direct!(Nothing; 57 0; I_R Vd false B U8, ABSENT; Zero Zero), // E7 OUT
    direct!(Nothing; 58 0; I B false B I32, ABSENT; Eight Eight), // E8 CALL
    direct!(Nothing; 54 0; I B false B I32, ABSENT; Zero Zero), // E9 JMP
    other!(Chosen(Search)), // EA
    direct!(Nothing; 54 0; I B false B I8, ABSENT; Zero Zero), // EB JMP
    direct!(Nothing; 56 0; R_I B false B Implied(RegisterSlot::Rm, 2, RegisterClass::W), ABSENT; Zero Zero), // EC IN
    direct!(Nothing; 56 0; R_I Vd false B Implied(RegisterSlot::Rm, 2, RegisterClass::W), ABSENT; Zero Zero), // ED IN
    direct!(Nothing; 57 0; I_R B false B Implied(RegisterSlot::Rm, 2, RegisterClass::W), ABSENT; Zero Zero), // EE OUT
    direct!(Nothing; 57 0; I_R Vd false B Implied(RegisterSlot::Rm, 2, RegisterClass::W), ABSENT; Zero Zero), // EF OUT
    other!(Chosen(Search)), // F0
    direct!(Nothing; 49 0; I B false B UNSIGNED_ONE, ABSENT; Zero Zero), // F1 INT
    other!(Chosen(Search)), // F2
    other!(Chosen(Search)), // F3
    direct!(Nothing; 59 0; NO B false B ABSENT, ABSENT; Zero Zero), // F4 HLT
    direct!(Nothing; 60 0; NO B false B ABSENT, ABSENT; Zero Zero), // F5 CMC
    other!(Chosen(Cells(110))), // F6 f6
    other!(Chosen(Cells(111))), // F7 f7
    direct!(Nothing; 61 0; NO B false B ABSENT, ABSENT; Zero Zero), // F8 CLC
    direct!(Nothing; 62 0; NO B false B ABSENT, ABSENT; Zero Zero), // F9 STC
    direct!(Nothing; 63 0; NO B false B ABSENT, ABSENT; Zero Zero), // FA CLI
    direct!(Nothing; 64 0; NO B false B ABSENT, ABSENT; Zero Zero), // FB STI
    direct!(Nothing; 65 0; NO B false B ABSENT, ABSENT; Zero Zero), // FC CLD
    direct!(Nothing; 66 0; NO B false B ABSENT, ABSENT; Zero Zero), // FD STD
    other!(Chosen(Cells(112))), // FE fe
    other!(Chosen(Cells(113))), // FF ff
];

/// Those that follow 0F.
pub(crate) const OF: &[ByteRow; 256] = &[
    other!(Chosen(Cells(114))), // 00 0f00
    other!(Chosen(Cells(115))), // 01 0f01
    direct!(Either; 67 0; G_E V false V ABSENT, ABSENT; Two V), // 02 LAR
    direct!(Either; 68 0; G_E V false Vd ABSENT, ABSENT; Two V), // 03 LSL
    other!(Chosen(Search)), // 04
    direct!(Nothing; 69 0; NO B false B ABSENT, ABSENT; Zero Zero), // 05 SYSCALL
    direct!(Nothing; 70 0; NO B false B ABSENT, ABSENT; Zero Zero), // 06 CLTS
    direct!(Nothing; 71 0; NO B false B ABSENT, ABSENT; Zero Zero), // 07 SYSRET
    direct!(Nothing; 72 0; NO B false B ABSENT, ABSENT; Zero Zero), // 08 INVD
    direct!(Nothing; 73 0; NO B false B ABSENT, ABSENT; Zero Zero), // 09 WBINVD
    other!(Chosen(Search)), // 0A
    direct!(Nothing; 74 0; NO B false B ABSENT, ABSENT; Zero Zero), // 0B UD2
    other!(Chosen(Search)), // 0C
    other!(Chosen(Cells(118))), // 0D 0f0d
    direct!(Nothing; 75 0; NO B false B ABSENT, ABSENT; Zero Zero), // 0E FEMMS
    other!(Chosen(Cells(119))), // 0F 0f0f
    direct!(Either; 191 0; G_E X false X ABSENT, ABSENT; Sixteen V), // 10 MOVUPS
    direct!(Either; 191 0; E_G X false X ABSENT, ABSENT; Sixteen V), // 11 MOVUPS
    other!(Chosen(Cells(144))), // 12 0f12
    direct!(Chosen(Memory); 195 0; E_G X false Q ABSENT, ABSENT; Eight Eight), // 13 MOVLPS
    direct!(Either; 192 0; G_E X false X ABSENT, ABSENT; Sixteen V), // 14 UNPCKLPS
    direct!(Either; 193 0; G_E X false X ABSENT, ABSENT; Sixteen V), // 15 UNPCKHPS
    other!(Chosen(Cells(145))), // 16 0f16
    direct!(Chosen(Memory); 196 0; E_G X false Q ABSENT, ABSENT; Eight Eight), // 17 MOVHPS
    other!(Chosen(Cells(120))), // 18 0f18
    direct!(Either; 76 0; E B false V ABSENT, ABSENT; V V), // 19 NOP
    direct!(Either; 76 0; E B false V ABSENT, ABSENT; V V), // 1A NOP
    direct!(Either; 76 0; E B false V ABSENT, ABSENT; V V), // 1B NOP
    direct!(Either; 76 0; E B false V ABSENT, ABSENT; V V), // 1C NOP
    direct!(Either; 76 0; E B false V ABSENT, ABSENT; V V), // 1D NOP
    direct!(Either; 76 0; E B false V ABSENT, ABSENT; V V), // 1E NOP
    direct!(Either; 76 0; E B false V ABSENT, ABSENT; V V), // 1F NOP
    other!(Chosen(Search)), // 20 MOV
    other!(Chosen(Search)), // 21 MOV
    other!(Chosen(Search)), // 22 MOV
    other!(Chosen(Search)), // 23 MOV
    other!(Chosen(Search)), // 24
    other!(Chosen(Search)), // 25
    other!(Chosen(Search)), // 26
    other!(Chosen(Search)), // 27
    direct!(Either; 194 0; G_E X false X ABSENT, ABSENT; Sixteen V), // 28 MOVAPS
    direct!(Either; 194 0; E_G X false X ABSENT, ABSENT; Sixteen V), // 29 MOVAPS
    direct!(Either; 198 0; G_E X false Mm ABSENT, ABSENT; Eight V), // 2A CVTPI2PS
    direct!(Chosen(Memory); 197 0; E_G X false Q ABSENT, ABSENT; Sixteen Sixteen), // 2B MOVNTPS
    direct!(Either; 199 0; G_E Mm false X ABSENT, ABSENT; Sixteen V), // 2C CVTTPS2PI
    direct!(Either; 200 0; G_E Mm false X ABSENT, ABSENT; Sixteen V), // 2D CVTPS2PI
    direct!(Either; 201 0; G_E X false X ABSENT, ABSENT; Four V), // 2E UCOMISS
    direct!(Either; 202 0; G_E X false X ABSENT, ABSENT; Four V), // 2F COMISS
    direct!(Nothing; 77 0; NO B false B ABSENT, ABSENT; Zero Zero), // 30 WRMSR
    direct!(Nothing; 78 0; NO B false B ABSENT, ABSENT; Zero Zero), // 31 RDTSC
    direct!(Nothing; 79 0; NO B false B ABSENT, ABSENT; Zero Zero), // 32 RDMSR
    direct!(Nothing; 80 0; NO B false B ABSENT, ABSENT; Zero Zero), // 33 RDPMC
    direct!(Nothing; 81 0; NO B false B ABSENT, ABSENT; Zero Zero), // 34 SYSENTER
    direct!(Nothing; 82 0; NO B false B ABSENT, ABSENT; Zero Zero), // 35 SYSEXIT
    other!(Chosen(Search)), // 36
    direct!(Nothing; 83 0; NO B false B ABSENT, ABSENT; Zero Zero), // 37 GETSEC
    other!(Chosen(Search)), // 38
    other!(Chosen(Search)), // 39
    other!(Chosen(Search)), // 3A
    other!(Chosen(Search)), // 3B
    other!(Chosen(Search)), // 3C
    other!(Chosen(Search)), // 3D
    other!(Chosen(Search)), // 3E
    other!(Chosen(Search)), // 3F
    direct!(Either; 84 0; G_E V false V ABSENT, ABSENT; V V), // 40 CMOVO
    direct!(Either; 85 0; G_E V false V ABSENT, ABSENT; V V), // 41 CMOVNO
    direct!(Either; 86 0; G_E V false V ABSENT, ABSENT; V V), // 42 CMOVB
    direct!(Either; 87 0; G_E V false V ABSENT, ABSENT; V V), // 43 CMOVNB
    direct!(Either; 88 0; G_E V false V ABSENT, ABSENT; V V), // 44 CMOVZ
    direct!(Either; 89 0; G_E V false V ABSENT, ABSENT; V V), // 45 CMOVNZ
    direct!(Either; 90 0; G_E V false V ABSENT, ABSENT; V V), // 46 CMOVNA
    direct!(Either; 91 0; G_E V false V ABSENT, ABSENT; V V), // 47 CMOVA
    direct!(Either; 92 0; G_E V false V ABSENT, ABSENT; V V), // 48 CMOVS
    direct!(Either; 93 0; G_E V false V ABSENT, ABSENT; V V), // 49 CMOVNS
    direct!(Either; 94 0; G_E V false V ABSENT, ABSENT; V V), // 4A CMOVP
    direct!(Either; 95 0; G_E V false V ABSENT, ABSENT; V V), // 4B CMOVNP
    direct!(Either; 96 0; G_E V false V ABSENT, ABSENT; V V), // 4C CMOVL
    direct!(Either; 97 0; G_E V false V ABSENT, ABSENT; V V), // 4D CMOVGE
    direct!(Either; 98 0; G_E V false V ABSENT, ABSENT; V V), // 4E CMOVLE
    direct!(Either; 99 0; G_E V false V ABSENT, ABSENT; V V), // 4F CMOVG
    direct!(Chosen(Register); 204 0; G_E D false X ABSENT, ABSENT; V V), // 50 MOVMSKPS
    direct!(Either; 205 0; G_E X false X ABSENT, ABSENT; Sixteen V), // 51 SQRTPS
    direct!(Either; 206 0; G_E X false X ABSENT, ABSENT; Sixteen V), // 52 RSQRTPS
    direct!(Either; 207 0; G_E X false X ABSENT, ABSENT; Sixteen V), // 53 RCPPS
    direct!(Either; 208 0; G_E X false X ABSENT, ABSENT; Sixteen V), // 54 ANDPS
    direct!(Either; 209 0; G_E X false X ABSENT, ABSENT; Sixteen V), // 55 ANDNPS
    direct!(Either; 210 0; G_E X false X ABSENT, ABSENT; Sixteen V), // 56 ORPS
    direct!(Either; 211 0; G_E X false X ABSENT, ABSENT; Sixteen V), // 57 XORPS
    direct!(Either; 212 0; G_E X false X ABSENT, ABSENT; Sixteen V), // 58 ADDPS
    direct!(Either; 213 0; G_E X false X ABSENT, ABSENT; Sixteen V), // 59 MULPS
    direct!(Either; 203 0; G_E X false X ABSENT, ABSENT; Eight V), // 5A CVTPS2PD
    direct!(Either; 214 0; G_E X false X ABSENT, ABSENT; Sixteen V), // 5B CVTDQ2PS
    direct!(Either; 215 0; G_E X false X ABSENT, ABSENT; Sixteen V), // 5C SUBPS
    direct!(Either; 216 0; G_E X false X ABSENT, ABSENT; Sixteen V), // 5D MINPS
    direct!(Either; 217 0; G_E X false X ABSENT, ABSENT; Sixteen V), // 5E DIVPS
    direct!(Either; 218 0; G_E X false X ABSENT, ABSENT; Sixteen V), // 5F MAXPS
    direct!(Either; 136 0; G_E Mm false Mm ABSENT, ABSENT; Four V), // 60 PUNPCKLBW
    direct!(Either; 137 0; G_E Mm false Mm ABSENT, ABSENT; Four V), // 61 PUNPCKLWD
    direct!(Either; 138 0; G_E Mm false Mm ABSENT, ABSENT; Four V), // 62 PUNPCKLDQ
    direct!(Either; 139 0; G_E Mm false Mm ABSENT, ABSENT; Eight V), // 63 PACKSSWB
    direct!(Either; 140 0; G_E Mm false Mm ABSENT, ABSENT; Eight V), // 64 PCMPGTB
    direct!(Either; 141 0; G_E Mm false Mm ABSENT, ABSENT; Eight V), // 65 PCMPGTW
    direct!(Either; 142 0; G_E Mm false Mm ABSENT, ABSENT; Eight V), // 66 PCMPGTD
    direct!(Either; 143 0; G_E Mm false Mm ABSENT, ABSENT; Eight V), // 67 PACKUSWB
    direct!(Either; 144 0; G_E Mm false Mm ABSENT, ABSENT; Eight V), // 68 PUNPCKHBW
    direct!(Either; 145 0; G_E Mm false Mm ABSENT, ABSENT; Eight V), // 69 PUNPCKHWD
    direct!(Either; 146 0; G_E Mm false Mm ABSENT, ABSENT; Eight V), // 6A PUNPCKHDQ
    direct!(Either; 147 0; G_E Mm false Mm ABSENT, ABSENT; Eight V), // 6B PACKSSDW
    other!(Chosen(Search)), // 6C
    other!(Chosen(Search)), // 6D
    direct!(Either; 219 0; G_E Mm false Dq ABSENT, ABSENT; V V), // 6E MOVD
    direct!(Either; 220 0; G_E Mm false Mm ABSENT, ABSENT; Eight V), // 6F MOVQ
    direct!(Either; 221 0; G_E_I Mm false Mm I8, ABSENT; Eight Zero), // 70 PSHUFW
    other!(Chosen(Cells(126))), // 71 0f71
    other!(Chosen(Cells(127))), // 72 0f72
    other!(Chosen(Cells(128))), // 73 0f73
    direct!(Either; 148 0; G_E Mm false Mm ABSENT, ABSENT; Eight V), // 74 PCMPEQB
    direct!(Either; 149 0; G_E Mm false Mm ABSENT, ABSENT; Eight V), // 75 PCMPEQW
    direct!(Either; 150 0; G_E Mm false Mm ABSENT, ABSENT; Eight V), // 76 PCMPEQD
    direct!(Nothing; 222 0; NO B false B ABSENT, ABSENT; Zero Zero), // 77 EMMS
    direct!(Either; 223 0; E_G Q false Q ABSENT, ABSENT; Eight V), // 78 VMREAD
    direct!(Either; 224 0; G_E Q false Q ABSENT, ABSENT; Eight V), // 79 VMWRITE
    other!(Chosen(Search)), // 7A
    other!(Chosen(Search)), // 7B
    other!(Chosen(Search)), // 7C
    other!(Chosen(Search)), // 7D
    direct!(Either; 219 0; E_G Mm false Dq ABSENT, ABSENT; Dq V), // 7E MOVD
    direct!(Either; 220 0; E_G Mm false Mm ABSENT, ABSENT; Eight V), // 7F MOVQ
    direct!(Nothing; 15 0; I B false B I32, ABSENT; Zero Zero), // 80 JO
    direct!(Nothing; 16 0; I B false B I32, ABSENT; Zero Zero), // 81 JNO
    direct!(Nothing; 17 0; I B false B I32, ABSENT; Zero Zero), // 82 JB
    direct!(Nothing; 18 0; I B false B I32, ABSENT; Zero Zero), // 83 JNB
    direct!(Nothing; 19 0; I B false B I32, ABSENT; Zero Zero), // 84 JZ
    direct!(Nothing; 20 0; I B false B I32, ABSENT; Zero Zero), // 85 JNZ
    direct!(Nothing; 21 0; I B false B I32, ABSENT; Zero Zero), // 86 JNA
    direct!(Nothing; 22 0; I B false B I32, ABSENT; Zero Zero), // 87 JA
    direct!(Nothing; 23 0; I B false B I32, ABSENT; Zero Zero), // 88 JS
    direct!(Nothing; 24 0; I B false B I32, ABSENT; Zero Zero), // 89 JNS
    direct!(Nothing; 25 0; I B false B I32, ABSENT; Zero Zero), // 8A JP
    direct!(Nothing; 26 0; I B false B I32, ABSENT; Zero Zero), // 8B JNP
    direct!(Nothing; 27 0; I B false B I32, ABSENT; Zero Zero), // 8C JL
    direct!(Nothing; 28 0; I B false B I32, ABSENT; Zero Zero), // 8D JGE
    direct!(Nothing; 29 0; I B false B I32, ABSENT; Zero Zero), // 8E JLE
    direct!(Nothing; 30 0; I B false B I32, ABSENT; Zero Zero), // 8F JG
    direct!(Either; 100 0; E B false B ABSENT, ABSENT; One One), // 90 SETO
    direct!(Either; 101 0; E B false B ABSENT, ABSENT; One One), // 91 SETNO
    direct!(Either; 102 0; E B false B ABSENT, ABSENT; One One), // 92 SETB
    direct!(Either; 103 0; E B false B ABSENT, ABSENT; One One), // 93 SETAE
    direct!(Either; 104 0; E B false B ABSENT, ABSENT; One One), // 94 SETZ
    direct!(Either; 105 0; E B false B ABSENT, ABSENT; One One), // 95 SETNZ
    direct!(Either; 106 0; E B false B ABSENT, ABSENT; One One), // 96 SETBE
    direct!(Either; 107 0; E B false B ABSENT, ABSENT; One One), // 97 SETA
    direct!(Either; 108 0; E B false B ABSENT, ABSENT; One One), // 98 SETS
    direct!(Either; 109 0; E B false B ABSENT, ABSENT; One One), // 99 SETNS
    direct!(Either; 110 0; E B false B ABSENT, ABSENT; One One), // 9A SETP
    direct!(Either; 111 0; E B false B ABSENT, ABSENT; One One), // 9B SETNP
    direct!(Either; 112 0; E B false B ABSENT, ABSENT; One One), // 9C SETL
    direct!(Either; 113 0; E B false B ABSENT, ABSENT; One One), // 9D SETGE
    direct!(Either; 114 0; E B false B ABSENT, ABSENT; One One), // 9E SETLE
    direct!(Either; 115 0; E B false B ABSENT, ABSENT; One One), // 9F SETG
    direct!(Nothing; 9 0; I B false B Implied(RegisterSlot::Reg, 4, RegisterClass::S), ABSENT; Eight Eight), // A0 PUSH
    direct!(Nothing; 10 0; I B false B Implied(RegisterSlot::Reg, 4, RegisterClass::S), ABSENT; Eight Eight), // A1 POP
    direct!(Nothing; 116 0; NO B false B ABSENT, ABSENT; Zero Zero), // A2 CPUID
    direct!(Either; 118 0; E_G V false V ABSENT, ABSENT; V V), // A3 BT
    direct!(Either; 122 0; E_G_I V false V I8, ABSENT; V V), // A4 SHLD
    direct!(Either; 122 0; E_G_I V false V Implied(RegisterSlot::Third, 1, RegisterClass::B), ABSENT; V V), // A5 SHLD
    other!(Chosen(Search)), // A6
    other!(Chosen(Search)), // A7
    direct!(Nothing; 9 0; I B false B Implied(RegisterSlot::Reg, 5, RegisterClass::S), ABSENT; Eight Eight), // A8 PUSH
    direct!(Nothing; 10 0; I B false B Implied(RegisterSlot::Reg, 5, RegisterClass::S), ABSENT; Eight Eight), // A9 POP
    direct!(Nothing; 117 0; NO B false B ABSENT, ABSENT; Zero Zero), // AA RSM
    direct!(Either; 119 0; E_G V false V ABSENT, ABSENT; V V), // AB BTS
    direct!(Either; 123 0; E_G_I V false V I8, ABSENT; V V), // AC SHRD
    direct!(Either; 123 0; E_G_I V false V Implied(RegisterSlot::Third, 1, RegisterClass::B), ABSENT; V V), // AD SHRD
    other!(Chosen(Cells(134))), // AE 0fae
    direct!(Either; 12 0; G_E V false V ABSENT, ABSENT; V V), // AF IMUL
    direct!(Either; 125 0; E_G B false B ABSENT, ABSENT; One One), // B0 CMPXCHG
    direct!(Either; 125 0; E_G V false V ABSENT, ABSENT; V V), // B1 CMPXCHG
    other!(Chosen(Search)), // B2 LSS
    direct!(Either; 120 0; E_G V false V ABSENT, ABSENT; V V), // B3 BTR
    other!(Chosen(Search)), // B4 LFS
    other!(Chosen(Search)), // B5 LGS
    direct!(Either; 130 0; G_E V false B ABSENT, ABSENT; One Zero), // B6 MOVZX
    direct!(Either; 130 0; G_E V false W ABSENT, ABSENT; Two Zero), // B7 MOVZX
    other!(Chosen(Search)), // B8
    direct!(Either; 124 0; G_E V false V ABSENT, ABSENT; V V), // B9 UD1
    other!(Chosen(Cells(138))), // BA 0fba
    direct!(Either; 121 0; E_G V false V ABSENT, ABSENT; V V), // BB BTC
    direct!(Either; 132 0; G_E V false V ABSENT, ABSENT; V V), // BC BSF
    direct!(Either; 133 0; G_E V false V ABSENT, ABSENT; V V), // BD BSR
    direct!(Either; 131 0; G_E V false B ABSENT, ABSENT; One Zero), // BE MOVSX
    direct!(Either; 131 0; G_E V false W ABSENT, ABSENT; Two Zero), // BF MOVSX
    direct!(Either; 126 0; E_G B false B ABSENT, ABSENT; One One), // C0 XADD
    direct!(Either; 126 0; E_G V false V ABSENT, ABSENT; V V), // C1 XADD
    direct!(Either; 225 0; G_E_I X false X I8, ABSENT; Sixteen V), // C2 CMPPS
    direct!(Chosen(Memory); 227 0; E_G Dq false Q ABSENT, ABSENT; Dq Dq), // C3 MOVNTI
    direct!(Either; 228 0; G_E_I Mm false D I8, ABSENT; Two V), // C4 PINSRW
    direct!(Chosen(Register); 229 0; G_E_I D false Mm U8, ABSENT; V V), // C5 PEXTRW
    direct!(Either; 226 0; G_E_I X false X I8, ABSENT; Sixteen V), // C6 SHUFPS
    other!(Chosen(Cells(139))), // C7 0fc7
    direct!(Nothing; 134 0; R V true B ABSENT, ABSENT; Zero Zero), // C8 BSWAP
    direct!(Nothing; 134 1; R V true B ABSENT, ABSENT; Zero Zero), // C9 BSWAP
    direct!(Nothing; 134 2; R V true B ABSENT, ABSENT; Zero Zero), // CA BSWAP
    direct!(Nothing; 134 3; R V true B ABSENT, ABSENT; Zero Zero), // CB BSWAP
    direct!(Nothing; 134 4; R V true B ABSENT, ABSENT; Zero Zero), // CC BSWAP
    direct!(Nothing; 134 5; R V true B ABSENT, ABSENT; Zero Zero), // CD BSWAP
    direct!(Nothing; 134 6; R V true B ABSENT, ABSENT; Zero Zero), // CE BSWAP
    direct!(Nothing; 134 7; R V true B ABSENT, ABSENT; Zero Zero), // CF BSWAP
    other!(Chosen(Search)), // D0
    direct!(Either; 151 0; G_E Mm false Mm ABSENT, ABSENT; Eight V), // D1 PSRLW
    direct!(Either; 152 0; G_E Mm false Mm ABSENT, ABSENT; Eight V), // D2 PSRLD
    direct!(Either; 153 0; G_E Mm false Mm ABSENT, ABSENT; Eight V), // D3 PSRLQ
    direct!(Either; 154 0; G_E Mm false Mm ABSENT, ABSENT; Eight V), // D4 PADDQ
    direct!(Either; 155 0; G_E Mm false Mm ABSENT, ABSENT; Eight V), // D5 PMULLW
    other!(Chosen(Search)), // D6
    direct!(Chosen(Register); 230 0; G_E D false Mm ABSENT, ABSENT; V V), // D7 PMOVMSKB
    direct!(Either; 156 0; G_E Mm false Mm ABSENT, ABSENT; Eight V), // D8 PSUBUSB
    direct!(Either; 157 0; G_E Mm false Mm ABSENT, ABSENT; Eight V), // D9 PSUBUSW
    direct!(Either; 158 0; G_E Mm false Mm ABSENT, ABSENT; Eight V), // DA PMINUB
    direct!(Either; 159 0; G_E Mm false Mm ABSENT, ABSENT; Eight V), // DB PAND
    direct!(Either; 160 0; G_E Mm false Mm ABSENT, ABSENT; Eight V), // DC PADDUSB
    direct!(Either; 161 0; G_E Mm false Mm ABSENT, ABSENT; Eight V), // DD PADDUSW
    direct!(Either; 162 0; G_E Mm false Mm ABSENT, ABSENT; Eight V), // DE PMAXUB
    direct!(Either; 163 0; G_E Mm false Mm ABSENT, ABSENT; Eight V), // DF PANDN
    direct!(Either; 164 0; G_E Mm false Mm ABSENT, ABSENT; Eight V), // E0 PAVGB
    direct!(Either; 165 0; G_E Mm false Mm ABSENT, ABSENT; Eight V), // E1 PSRAW
    direct!(Either; 166 0; G_E Mm false Mm ABSENT, ABSENT; Eight V), // E2 PSRAD
    direct!(Either; 167 0; G_E Mm false Mm ABSENT, ABSENT; Eight V), // E3 PAVGW
    direct!(Either; 168 0; G_E Mm false Mm ABSENT, ABSENT; Eight V), // E4 PMULHUW
    direct!(Either; 169 0; G_E Mm false Mm ABSENT, ABSENT; Eight V), // E5 PMULHW
    other!(Chosen(Search)), // E6
    direct!(Chosen(Memory); 231 0; E_G Mm false Q ABSENT, ABSENT; Eight Eight), // E7 MOVNTQ
    direct!(Either; 170 0; G_E Mm false Mm ABSENT, ABSENT; Eight V), // E8 PSUBSB
    direct!(Either; 171 0; G_E Mm false Mm ABSENT, ABSENT; Eight V), // E9 PSUBSW
    direct!(Either; 172 0; G_E Mm false Mm ABSENT, ABSENT; Eight V), // EA PMINSW
    direct!(Either; 173 0; G_E Mm false Mm ABSENT, ABSENT; Eight V), // EB POR
    direct!(Either; 174 0; G_E Mm false Mm ABSENT, ABSENT; Eight V), // EC PADDSB
    direct!(Either; 175 0; G_E Mm false Mm ABSENT, ABSENT; Eight V), // ED PADDSW
    direct!(Either; 176 0; G_E Mm false Mm ABSENT, ABSENT; Eight V), // EE PMAXSW
    direct!(Either; 177 0; G_E Mm false Mm ABSENT, ABSENT; Eight V), // EF PXOR
    other!(Chosen(Search)), // F0
    direct!(Either; 178 0; G_E Mm false Mm ABSENT, ABSENT; Eight V), // F1 PSLLW
    direct!(Either; 179 0; G_E Mm false Mm ABSENT, ABSENT; Eight V), // F2 PSLLD
    direct!(Either; 180 0; G_E Mm false Mm ABSENT, ABSENT; Eight V), // F3 PSLLQ
    direct!(Either; 181 0; G_E Mm false Mm ABSENT, ABSENT; Eight V), // F4 PMULUDQ
    direct!(Either; 182 0; G_E Mm false Mm ABSENT, ABSENT; Eight V), // F5 PMADDWD
    direct!(Either; 183 0; G_E Mm false Mm ABSENT, ABSENT; Eight V), // F6 PSADBW
    direct!(Chosen(Register); 232 0; G_E Mm false Mm ABSENT, ABSENT; Eight Eight), // F7 MASKMOVQ
    direct!(Either; 184 0; G_E Mm false Mm ABSENT, ABSENT; Eight V), // F8 PSUBB
    direct!(Either; 185 0; G_E Mm false Mm ABSENT, ABSENT; Eight V), // F9 PSUBW
    direct!(Either; 186 0; G_E Mm false Mm ABSENT, ABSENT; Eight V), // FA PSUBD
    direct!(Either; 187 0; G_E Mm false Mm ABSENT, ABSENT; Eight V), // FB PSUBQ
    direct!(Either; 188 0; G_E Mm false Mm ABSENT, ABSENT; Eight V), // FC PADDB
    direct!(Either; 189 0; G_E Mm false Mm ABSENT, ABSENT; Eight V), // FD PADDW
    direct!(Either; 190 0; G_E Mm false Mm ABSENT, ABSENT; Eight V), // FE PADDD
    direct!(Either; 135 0; G_E D false D ABSENT, ABSENT; Four V), // FF UD0
];
