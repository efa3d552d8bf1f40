//! The rows of the plain forms: where, the prefixes, and what is there. A name is the number of an opcode, which
//! the comment spells, and 0 is none.
//!
//! Written by tools/tables.py from specs/Rows.antt.
//! The proof doesn't rest on that script: a wrong entry is refused.
use crate::heads::{After, Head, head};
use crate::rows::Names::{Name, Own};
use crate::rows::When::{Always, Opcode, Register0, RexR, RexW, With66, With67};
use crate::rows::{Reg, Rm, TemplateRow};
use crate::vocabulary::OperandEncoding::{
    At, ConstantU8, Destination, I8, I32, Implied, Ip, Iv, Ivq, Offset, Source, Sr, U8, U16, X16, Z,
};
use crate::vocabulary::{OperandEncoding, PointerSlot, RegisterSlot};
use x86_fields::Width::V;
use x86_regs::RegisterClass;

const ABSENT: OperandEncoding = OperandEncoding::ABSENT;

const UNSIGNED_ONE: OperandEncoding = ConstantU8(1);

const THREE: OperandEncoding = ConstantU8(3);

/// The rows of all forms, after that of a form that has none.
pub(crate) const ROWS: &[TemplateRow; 157] = &[
    refused!(Either Reg::Any, Rm::Any; Always; NO B false B ABSENT, ABSENT; Incomplete),
    read!(Bare Reg::Any, Rm::Any; Always; Own; R Vq true B ABSENT, ABSENT; Eight Eight), // Zv_R
    read!(Bare Reg::Any, Rm::Any; Register0; Name(76); NO B false B ABSENT, ABSENT; Zero Zero), // Zv_AX_R NOP
    read!(Bare Reg::Any, Rm::Any; Always; Own; R_I V false B Z(RegisterSlot::Rm, V, 0), ABSENT; Zero Zero), // Zv_AX_R
    read!(Bare Reg::Any, Rm::Any; Always; Own; R_I B true B U8, ABSENT; Zero Zero), // Zb_Ib_R
    read!(Bare Reg::Any, Rm::Any; Always; Own; R_I V true B Ivq, ABSENT; Zero Zero), // Zv_Ivq_R
    read!(Bare Reg::Any, Rm::Any; Always; Own; R V true B ABSENT, ABSENT; Zero Zero), // Zv_B
    read!(Either Reg::Any, Rm::Any; Always; Own; E_G B false B ABSENT, ABSENT; One One), // Eb_Gb
    read!(Either Reg::Any, Rm::Any; Always; Own; E_G V false V ABSENT, ABSENT; V V), // Ev_Gv
    read!(Either Reg::Any, Rm::Any; Always; Own; G_E B false B ABSENT, ABSENT; One One), // Gb_Eb
    read!(Either Reg::Any, Rm::Any; Always; Own; G_E V false V ABSENT, ABSENT; V V), // Gv_Ev
    read!(Bare Reg::Any, Rm::Any; Always; Own; R_I B false B I8, ABSENT; Zero Zero), // AL_Ibs
    read!(Bare Reg::Any, Rm::Any; Always; Own; R_I V false B Iv, ABSENT; Zero Zero), // AX_Ivd
    read!(Either Reg::Any, Rm::Any; Always; Own; G_E Q false D ABSENT, ABSENT; Four V), // Gdq_Ed
    read!(Bare Reg::Any, Rm::Any; Always; Own; I B false B Ip, ABSENT; Eight Eight), // PushIvs
    read!(Either Reg::Any, Rm::Any; Always; Own; G_E_I V false V Iv, ABSENT; V V), // Gv_Ev_Iv
    read!(Bare Reg::Any, Rm::Any; Always; Own; I B false B I8, ABSENT; Eight Eight), // PushIbs
    read!(Either Reg::Any, Rm::Any; Always; Own; G_E_I V false V I8, ABSENT; V V), // Gv_Ev_Ib
    read!(Bare Reg::Any, Rm::Any; Always; Own; I_X B false B At(PointerSlot::Deref, 7, RegisterClass::Q), Implied(RegisterSlot::Reg, 2, RegisterClass::B); One One), // Yb_DX
    read!(Bare Reg::Any, Rm::Any; With66; Own; I_X B false B At(PointerSlot::Deref, 7, RegisterClass::Q), Implied(RegisterSlot::Reg, 2, RegisterClass::W); Two Two), // Yv_DX
    read!(Bare Reg::Any, Rm::Any; Always; Own; I_X B false B At(PointerSlot::Deref, 7, RegisterClass::Q), Implied(RegisterSlot::Reg, 2, RegisterClass::W); Four Four), // Yv_DX
    read!(Bare Reg::Any, Rm::Any; Always; Own; I_X B false B Implied(RegisterSlot::Reg, 2, RegisterClass::B), At(PointerSlot::Deref, 6, RegisterClass::Q); One One), // DX_Xb
    read!(Bare Reg::Any, Rm::Any; With66; Own; I_X B false B Implied(RegisterSlot::Reg, 2, RegisterClass::W), At(PointerSlot::Deref, 6, RegisterClass::Q); Two Two), // DX_Xv
    read!(Bare Reg::Any, Rm::Any; Always; Own; I_X B false B Implied(RegisterSlot::Reg, 2, RegisterClass::W), At(PointerSlot::Deref, 6, RegisterClass::Q); Four Four), // DX_Xv
    read!(Bare Reg::Any, Rm::Any; Always; Own; I B false B I8, ABSENT; Zero Zero), // Ibs
    refused!(Either Reg::Any, Rm::Any; RexR; E B false Q ABSENT, ABSENT; BadOperand), // Ew_Sw
    read!(Either Reg::From(0, 5), Rm::Any; Always; Own; E_I B false D Sr, ABSENT; Two V), // Ew_Sw
    refused!(Either Reg::Any, Rm::Any; Always; E B false Q ABSENT, ABSENT; BadOperand), // Ew_Sw
    read!(Memory Reg::Any, Rm::Any; Always; Own; G_E V false Q ABSENT, ABSENT; V V), // Gv_M
    refused!(Either Reg::Any, Rm::Any; Always; NO B false B ABSENT, ABSENT; BadOperand), // Gv_M
    refused!(Either Reg::Any, Rm::Any; RexR; E B false Q ABSENT, ABSENT; BadOperand), // Sw_Ew
    refused!(Either Reg::Is(1), Rm::Any; Always; E B false Q ABSENT, ABSENT; BadOperand), // Sw_Ew
    read!(Either Reg::From(0, 5), Rm::Any; Always; Own; I_E B false W Sr, ABSENT; Two V), // Sw_Ew
    refused!(Either Reg::Any, Rm::Any; Always; E B false Q ABSENT, ABSENT; BadOperand), // Sw_Ew
    read!(Bare Reg::Any, Rm::Any; RexW; Name(429); NO B false B ABSENT, ABSENT; Zero Zero), // CVT_AA CDQE
    read!(Bare Reg::Any, Rm::Any; With66; Name(427); NO B false B ABSENT, ABSENT; Zero Zero), // CVT_AA CBW
    read!(Bare Reg::Any, Rm::Any; Always; Name(442); NO B false B ABSENT, ABSENT; Zero Zero), // CVT_AA CWDE
    read!(Bare Reg::Any, Rm::Any; RexW; Name(440); NO B false B ABSENT, ABSENT; Zero Zero), // CVT_DA CQO
    read!(Bare Reg::Any, Rm::Any; With66; Name(441); NO B false B ABSENT, ABSENT; Zero Zero), // CVT_DA CWD
    read!(Bare Reg::Any, Rm::Any; Always; Name(428); NO B false B ABSENT, ABSENT; Zero Zero), // CVT_DA CDQ
    read!(Bare Reg::Any, Rm::Any; Always; Own; NO B false B ABSENT, ABSENT; Bare Bare), // Nothing
    read!(Bare Reg::Any, Rm::Any; Always; Own; NO B false B ABSENT, ABSENT; Zero Zero), // AH
    read!(Bare Reg::Any, Rm::Any; Always; Own; R_I B false B Offset, ABSENT; One One), // AL_Ob
    read!(Bare Reg::Any, Rm::Any; Always; Own; R_I V false B Offset, ABSENT; V V), // AX_Ov
    read!(Bare Reg::Any, Rm::Any; Always; Own; I_R B false B Offset, ABSENT; One One), // Ob_AL
    read!(Bare Reg::Any, Rm::Any; Always; Own; I_R V false B Offset, ABSENT; V V), // Ov_AX
    read!(Bare Reg::Any, Rm::Any; With67; Own; I_X B false B At(PointerSlot::DerefEdi, 7, RegisterClass::D), At(PointerSlot::DerefEsi, 6, RegisterClass::D); One One), // Yb_Xb
    read!(Bare Reg::Any, Rm::Any; Always; Own; I_X B false B At(PointerSlot::DerefRdi, 7, RegisterClass::Q), At(PointerSlot::DerefRsi, 6, RegisterClass::Q); One One), // Yb_Xb
    read!(Bare Reg::Any, Rm::Any; With67; Own; I_X B false B At(PointerSlot::DerefEdi, 7, RegisterClass::D), At(PointerSlot::DerefEsi, 6, RegisterClass::D); V V), // Yv_Xv
    read!(Bare Reg::Any, Rm::Any; Always; Own; I_X B false B At(PointerSlot::DerefRdi, 7, RegisterClass::Q), At(PointerSlot::DerefRsi, 6, RegisterClass::Q); V V), // Yv_Xv
    read!(Bare Reg::Any, Rm::Any; Always; Own; I_R B false B Destination, ABSENT; One One; SetsEs), // Yb_AL
    read!(Bare Reg::Any, Rm::Any; Always; Own; I_R V false B Destination, ABSENT; V V; SetsEs), // Yv_AX
    read!(Bare Reg::Any, Rm::Any; Always; Own; R_I B false B Source, ABSENT; One One), // AL_Xb
    read!(Bare Reg::Any, Rm::Any; Always; Own; R_I V false B Source, ABSENT; V V), // AX_Xv
    read!(Bare Reg::Any, Rm::Any; Always; Own; I B false B U16, ABSENT; Return Return), // Iw
    read!(Bare Reg::Any, Rm::Any; Always; Own; I_X B false B X16, U8; Eight Eight), // Iw_Ib
    read!(Bare Reg::Any, Rm::Any; Always; Own; I B false B THREE, ABSENT; Zero Zero), // I_3
    read!(Bare Reg::Any, Rm::Any; Always; Own; I B false B U8, ABSENT; Zero Zero), // Ib
    read!(Bare Reg::Any, Rm::Any; RexW; Name(554); NO B false B ABSENT, ABSENT; Zero Zero), // Fw IRETQ
    read!(Bare Reg::Any, Rm::Any; With66; Name(552); NO B false B ABSENT, ABSENT; Zero Zero), // Fw IRET
    read!(Bare Reg::Any, Rm::Any; Always; Name(553); NO B false B ABSENT, ABSENT; Zero Zero), // Fw IRETD
    read!(Bare Reg::Any, Rm::Any; With67; Name(555); I B false B I8, ABSENT; Zero Zero), // CXZ JECXZ
    read!(Bare Reg::Any, Rm::Any; Always; Own; I B false B I8, ABSENT; Zero Zero), // CXZ
    read!(Bare Reg::Any, Rm::Any; Always; Own; R_I B false B U8, ABSENT; Zero Zero), // AL_Ib
    read!(Bare Reg::Any, Rm::Any; Always; Own; R_I Vd false B U8, ABSENT; Zero Zero), // AX_Ib
    read!(Bare Reg::Any, Rm::Any; Always; Own; I_R B false B U8, ABSENT; Zero Zero), // Ib_AL
    read!(Bare Reg::Any, Rm::Any; Always; Own; I_R Vd false B U8, ABSENT; Zero Zero), // Ib_AX
    read!(Bare Reg::Any, Rm::Any; Always; Own; I B false B I32, ABSENT; Call Call), // Jvds
    read!(Bare Reg::Any, Rm::Any; Always; Own; R_I B false B Implied(RegisterSlot::Rm, 2, RegisterClass::W), ABSENT; Zero Zero), // AL_DX
    read!(Bare Reg::Any, Rm::Any; Always; Own; R_I Vd false B Implied(RegisterSlot::Rm, 2, RegisterClass::W), ABSENT; Zero Zero), // AX_DX
    read!(Bare Reg::Any, Rm::Any; Always; Own; I_R B false B Implied(RegisterSlot::Rm, 2, RegisterClass::W), ABSENT; Zero Zero), // DX_AL
    read!(Bare Reg::Any, Rm::Any; Always; Own; I_R Vd false B Implied(RegisterSlot::Rm, 2, RegisterClass::W), ABSENT; Zero Zero), // DX_AX
    read!(Bare Reg::Any, Rm::Any; Always; Own; I B false B UNSIGNED_ONE, ABSENT; Zero Zero), // I_1
    read!(Either Reg::Any, Rm::Any; Always; Own; G_E V false V ABSENT, ABSENT; Two V), // Gv_Ew_LAR
    read!(Either Reg::Any, Rm::Any; Always; Own; G_E V false Vd ABSENT, ABSENT; Two V), // Gv_Ew_LSL
    read!(Either Reg::Any, Rm::Any; Always; Own; E B false V ABSENT, ABSENT; V V), // Ev
    read!(Either Reg::Any, Rm::Any; Always; Own; E B false B ABSENT, ABSENT; One One), // Eb_R0
    read!(Bare Reg::Any, Rm::Any; Always; Own; I B false B Implied(RegisterSlot::Reg, 4, RegisterClass::S), ABSENT; Eight Eight), // FS
    read!(Either Reg::Any, Rm::Any; Always; Own; E_G_I V false V I8, ABSENT; V V), // Ev_Gv_Ib
    read!(Either Reg::Any, Rm::Any; Always; Own; E_G_I V false V Implied(RegisterSlot::Third, 1, RegisterClass::B), ABSENT; V V), // Ev_Gv_CL
    read!(Bare Reg::Any, Rm::Any; Always; Own; I B false B Implied(RegisterSlot::Reg, 5, RegisterClass::S), ABSENT; Eight Eight), // GS
    read!(Memory Reg::Any, Rm::Any; Opcode(128); Own; G_E V false Q ABSENT, ABSENT; FarPointer FarPointer), // INV_Gv_M LFS
    read!(Memory Reg::Any, Rm::Any; Opcode(129); Own; G_E V false Q ABSENT, ABSENT; FarPointer FarPointer), // INV_Gv_M LGS
    read!(Memory Reg::Any, Rm::Any; Opcode(127); Own; G_E V false Q ABSENT, ABSENT; FarPointer FarPointer), // INV_Gv_M LSS
    read!(Memory Reg::Any, Rm::Any; Opcode(391); Own; G_E Q false Q ABSENT, ABSENT; SixtyFour SixtyFour), // INV_Gv_M ENQCMD
    read!(Memory Reg::Any, Rm::Any; Opcode(389); Own; G_E Q false Q ABSENT, ABSENT; SixtyFour SixtyFour), // INV_Gv_M ENQCMDS
    read!(Memory Reg::Any, Rm::Any; Always; Own; G_E Q false Q ABSENT, ABSENT; Sixteen Sixteen), // INV_Gv_M
    refused!(Either Reg::Any, Rm::Any; Always; NO B false B ABSENT, ABSENT; BadOperand), // INV_Gv_M
    read!(Either Reg::Any, Rm::Any; Always; Own; G_E V false B ABSENT, ABSENT; One Zero), // Gv_Eb
    read!(Either Reg::Any, Rm::Any; Always; Own; G_E V false W ABSENT, ABSENT; Two Zero), // Gv_Ew
    read!(Either Reg::Any, Rm::Any; Always; Own; G_E D false D ABSENT, ABSENT; Four V), // Gd_Ed
    read!(Either Reg::Any, Rm::Any; Always; Own; G_E Mm false Mm ABSENT, ABSENT; Unpack V), // G_E_mm
    read!(Either Reg::Any, Rm::Any; Always; Own; G_E X false X ABSENT, ABSENT; Duplicate V), // G_E_xmm
    read!(Either Reg::Any, Rm::Any; Always; Own; E_G X false X ABSENT, ABSENT; Sixteen V), // E_G_xmm
    read!(Memory Reg::Any, Rm::Any; Always; Own; E_G X false Q ABSENT, ABSENT; Stream Stream), // M_G_xmm
    refused!(Either Reg::Any, Rm::Any; Always; NO B false B ABSENT, ABSENT; BadOperand), // M_G_xmm
    read!(Either Reg::Any, Rm::Any; Always; Own; G_E X false Mm ABSENT, ABSENT; Eight V), // G_xmm_E_mm
    read!(Either Reg::Any, Rm::Any; Always; Own; G_E Mm false X ABSENT, ABSENT; Sixteen V), // G_mm_E_xmm
    read!(Either Reg::Any, Rm::Any; Always; Own; G_E X false X ABSENT, ABSENT; Extend V), // PMOVX_G_E_xmm
    read!(Register Reg::Any, Rm::Any; Always; Own; G_E D false X ABSENT, ABSENT; V V), // Gd_U_xmm
    refused!(Either Reg::Any, Rm::Any; Always; E B false Q ABSENT, ABSENT; BadOperand), // Gd_U_xmm
    read!(Either Reg::Any, Rm::Any; Always; Own; G_E Mm false Dq ABSENT, ABSENT; V V), // G_mm_Edq
    read!(Either Reg::Any, Rm::Any; Always; Own; G_E Mm false Mm ABSENT, ABSENT; Eight V), // G_mm_E
    read!(Either Reg::Any, Rm::Any; Always; Own; G_E_I Mm false Mm I8, ABSENT; Eight Zero), // G_E_mm_Ib
    read!(Either Reg::Any, Rm::Any; Always; Own; E_G Q false Q ABSENT, ABSENT; Eight V), // E_G_q
    read!(Either Reg::Any, Rm::Any; Always; Own; G_E Q false Q ABSENT, ABSENT; Eight V), // G_E_q
    read!(Either Reg::Any, Rm::Any; Always; Own; E_G Mm false Dq ABSENT, ABSENT; Dq V), // Edq_G_mm
    read!(Either Reg::Any, Rm::Any; Always; Own; E_G Mm false Mm ABSENT, ABSENT; Eight V), // E_G_mm
    read!(Either Reg::Any, Rm::Any; Always; Own; G_E_I X false X I8, ABSENT; Scalar V), // G_E_xmm_Ib
    read!(Memory Reg::Any, Rm::Any; Always; Own; E_G Dq false Q ABSENT, ABSENT; Dq Dq), // Mdq_Gdq
    refused!(Either Reg::Any, Rm::Any; Always; NO B false B ABSENT, ABSENT; BadOperand), // Mdq_Gdq
    read!(Either Reg::Any, Rm::Any; Always; Own; G_E_I Mm false D I8, ABSENT; Two V), // G_mm_Ew_Ib
    read!(Register Reg::Any, Rm::Any; Always; Own; G_E_I D false Mm U8, ABSENT; V V), // Rv_Gmm_Ib
    refused!(Either Reg::Any, Rm::Any; Always; G_E_I D false Mm U8, ABSENT; BadOperand), // Rv_Gmm_Ib
    read!(Register Reg::Any, Rm::Any; Always; Own; G_E D false Mm ABSENT, ABSENT; V V), // G_U_mm
    refused!(Either Reg::Any, Rm::Any; Always; E B false Q ABSENT, ABSENT; BadOperand), // G_U_mm
    read!(Memory Reg::Any, Rm::Any; Always; Own; E_G Mm false Q ABSENT, ABSENT; Eight Eight), // G_Mq_mm
    refused!(Either Reg::Any, Rm::Any; Always; NO B false B ABSENT, ABSENT; BadOperand), // G_Mq_mm
    read!(Register Reg::Any, Rm::Any; Always; Own; G_E Mm false Mm ABSENT, ABSENT; Eight Eight), // G_mm_U_mm
    refused!(Either Reg::Any, Rm::Any; Always; E B false Q ABSENT, ABSENT; BadOperand), // G_mm_U_mm
    read!(Either Reg::Any, Rm::Any; Always; Own; G_E X false Dq ABSENT, ABSENT; V V), // G_xmm_Edq
    read!(Register Reg::Any, Rm::Any; Always; Own; G_E X false X ABSENT, ABSENT; V V), // G_U_xmm
    refused!(Either Reg::Any, Rm::Any; Always; E B false Q ABSENT, ABSENT; BadOperand), // G_U_xmm
    read!(Either Reg::Any, Rm::Any; RexW; Name(220); E_G X false Dq ABSENT, ABSENT; Dq V), // Edq_G_xmm MOVQ
    read!(Either Reg::Any, Rm::Any; Always; Own; E_G X false Dq ABSENT, ABSENT; Dq V), // Edq_G_xmm
    read!(Either Reg::Any, Rm::Any; Always; Own; G_E_I X false D U8, ABSENT; Two V), // G_xmm_Ew_Ib
    read!(Register Reg::Any, Rm::Any; Always; Own; G_E_I D false X U8, ABSENT; V V), // G_U_xmm_Ub
    refused!(Either Reg::Any, Rm::Any; Always; E B false Q ABSENT, ABSENT; BadOperand), // G_U_xmm_Ub
    read!(Either Reg::Any, Rm::Any; Always; Own; E_G X false X ABSENT, ABSENT; Eight V), // PMOVX_E_G_xmm
    read!(Register Reg::Any, Rm::Any; Always; Own; G_E X false X ABSENT, ABSENT; Sixteen Sixteen), // MASKMOVDQU
    refused!(Either Reg::Any, Rm::Any; Always; E B false Q ABSENT, ABSENT; BadOperand), // MASKMOVDQU
    read!(Either Reg::Any, Rm::Any; Always; Own; G_E X false X ABSENT, ABSENT; Four V), // G_Ed_xmm
    read!(Either Reg::Any, Rm::Any; Always; Own; E_G X false X ABSENT, ABSENT; Four V), // Ed_G_xmm
    read!(Either Reg::Any, Rm::Any; Always; Own; G_E V false X ABSENT, ABSENT; Four V), // Gv_E_xmm
    read!(Either Reg::Any, Rm::Any; Always; Own; G_E X false X ABSENT, ABSENT; Eight V), // MOVQ_f30f
    read!(Register Reg::Any, Rm::Any; Always; Own; G_E X false Mm ABSENT, ABSENT; V V), // G_xmm_U_mm
    refused!(Either Reg::Any, Rm::Any; Always; E B false Q ABSENT, ABSENT; BadOperand), // G_xmm_U_mm
    read!(Either Reg::Any, Rm::Any; Always; Own; G_E V false X ABSENT, ABSENT; Eight V), // Gdq_Eq_xmm
    read!(Register Reg::Any, Rm::Any; Always; Own; G_E Mm false X ABSENT, ABSENT; V V), // G_mm_U_xmm
    refused!(Either Reg::Any, Rm::Any; Always; E B false Q ABSENT, ABSENT; BadOperand), // G_mm_U_xmm
    read!(Memory Reg::Any, Rm::Any; Always; Own; G_E X false Q ABSENT, ABSENT; Sixteen Sixteen), // G_M_xmm
    refused!(Either Reg::Any, Rm::Any; Always; NO B false B ABSENT, ABSENT; BadOperand), // G_M_xmm
    read!(Memory Reg::Any, Rm::Any; Always; Own; G_E X false Q ABSENT, ABSENT; Eight Eight), // G_Mq_xmm
    refused!(Either Reg::Any, Rm::Any; Always; NO B false B ABSENT, ABSENT; BadOperand), // G_Mq_xmm
    read!(Memory Reg::Any, Rm::Any; Always; Own; E_G V false Q ABSENT, ABSENT; V V), // M_Gv
    refused!(Either Reg::Any, Rm::Any; Always; NO B false B ABSENT, ABSENT; BadOperand), // M_Gv
    read!(Memory Reg::Any, Rm::Any; With67; Own; G_E D false Q ABSENT, ABSENT; SixtyFour SixtyFour), // MOVDIR64B
    read!(Memory Reg::Any, Rm::Any; Always; Own; G_E Q false Q ABSENT, ABSENT; SixtyFour SixtyFour), // MOVDIR64B
    refused!(Either Reg::Any, Rm::Any; Always; NO B false B ABSENT, ABSENT; BadOperand), // MOVDIR64B
    read!(Either Reg::Any, Rm::Any; Always; Own; G_E Dq false V ABSENT, ABSENT; Four V), // Gdq_Ev
    read!(Either Reg::Any, Rm::Any; Always; Own; G_E_I X false X U8, ABSENT; Sixteen V), // G_E_xmm_Ub
    read!(Either Reg::Any, Rm::Any; Always; Own; E_G_I X false V U8, ABSENT; Extract Extract), // Ev_G_xmm_Ib
    read!(Either Reg::Any, Rm::Any; RexW; Name(577); E_G_I X false V U8, ABSENT; Dq Dq), // Pextr_dq PEXTRQ
    read!(Either Reg::Any, Rm::Any; Always; Name(411); E_G_I X false V U8, ABSENT; Dq Dq), // Pextr_dq PEXTRD
    read!(Either Reg::Any, Rm::Any; Always; Own; G_E_I X false X U8, ABSENT; Insert V), // G_Ev_xmm_Ib
    read!(Either Reg::Any, Rm::Any; RexW; Name(599); G_E_I X false X U8, ABSENT; Dq V), // Pinsr_dq PINSRQ
    read!(Either Reg::Any, Rm::Any; Always; Name(414); G_E_I X false X U8, ABSENT; Dq V), // Pinsr_dq PINSRD
];

/// The first row of each ordinal, and the one after its last. A form that carries a number has eight ordinals.
pub(crate) const SPANS: &[(u16, u16); 199] = &[
    (1, 2), // Zv_R
    (1, 2), // Zv_R
    (1, 2), // Zv_R
    (1, 2), // Zv_R
    (1, 2), // Zv_R
    (1, 2), // Zv_R
    (1, 2), // Zv_R
    (1, 2), // Zv_R
    (2, 4), // Zv_AX_R
    (2, 4), // Zv_AX_R
    (2, 4), // Zv_AX_R
    (2, 4), // Zv_AX_R
    (2, 4), // Zv_AX_R
    (2, 4), // Zv_AX_R
    (2, 4), // Zv_AX_R
    (2, 4), // Zv_AX_R
    (4, 5), // Zb_Ib_R
    (4, 5), // Zb_Ib_R
    (4, 5), // Zb_Ib_R
    (4, 5), // Zb_Ib_R
    (4, 5), // Zb_Ib_R
    (4, 5), // Zb_Ib_R
    (4, 5), // Zb_Ib_R
    (4, 5), // Zb_Ib_R
    (5, 6), // Zv_Ivq_R
    (5, 6), // Zv_Ivq_R
    (5, 6), // Zv_Ivq_R
    (5, 6), // Zv_Ivq_R
    (5, 6), // Zv_Ivq_R
    (5, 6), // Zv_Ivq_R
    (5, 6), // Zv_Ivq_R
    (5, 6), // Zv_Ivq_R
    (6, 7), // Zv_B
    (6, 7), // Zv_B
    (6, 7), // Zv_B
    (6, 7), // Zv_B
    (6, 7), // Zv_B
    (6, 7), // Zv_B
    (6, 7), // Zv_B
    (6, 7), // Zv_B
    (7, 8), // Eb_Gb
    (8, 9), // Ev_Gv
    (9, 10), // Gb_Eb
    (10, 11), // Gv_Ev
    (11, 12), // AL_Ibs
    (12, 13), // AX_Ivd
    (13, 14), // Gdq_Ed
    (14, 15), // PushIvs
    (15, 16), // Gv_Ev_Iv
    (16, 17), // PushIbs
    (17, 18), // Gv_Ev_Ib
    (18, 19), // Yb_DX
    (19, 21), // Yv_DX
    (21, 22), // DX_Xb
    (22, 24), // DX_Xv
    (24, 25), // Ibs
    (0, 1), // ModRM_0x80
    (0, 1), // ModRM_0x81
    (0, 1), // ModRM_0x83
    (25, 28), // Ew_Sw
    (28, 30), // Gv_M
    (30, 34), // Sw_Ew
    (0, 1), // ModRM_0x8f
    (34, 37), // CVT_AA
    (37, 40), // CVT_DA
    (40, 41), // Nothing
    (41, 42), // AH
    (42, 43), // AL_Ob
    (43, 44), // AX_Ov
    (44, 45), // Ob_AL
    (45, 46), // Ov_AX
    (46, 48), // Yb_Xb
    (48, 50), // Yv_Xv
    (50, 51), // Yb_AL
    (51, 52), // Yv_AX
    (52, 53), // AL_Xb
    (53, 54), // AX_Xv
    (0, 1), // ModRM_0xc0
    (0, 1), // ModRM_0xc1
    (54, 55), // Iw
    (0, 1), // ModRM_0xc6
    (0, 1), // ModRM_0xc7
    (55, 56), // Iw_Ib
    (56, 57), // I_3
    (57, 58), // Ib
    (58, 61), // Fw
    (0, 1), // ModRM_0xd0
    (0, 1), // ModRM_0xd1
    (0, 1), // ModRM_0xd2
    (0, 1), // ModRM_0xd3
    (0, 1), // x87_d8
    (0, 1), // x87_d9
    (0, 1), // x87_da
    (0, 1), // x87_db
    (0, 1), // x87_dc
    (0, 1), // x87_dd
    (0, 1), // x87_de
    (0, 1), // x87_df
    (61, 63), // CXZ
    (63, 64), // AL_Ib
    (64, 65), // AX_Ib
    (65, 66), // Ib_AL
    (66, 67), // Ib_AX
    (67, 68), // Jvds
    (68, 69), // AL_DX
    (69, 70), // AX_DX
    (70, 71), // DX_AL
    (71, 72), // DX_AX
    (72, 73), // I_1
    (0, 1), // ModRM_0xf6
    (0, 1), // ModRM_0xf7
    (0, 1), // ModRM_0xfe
    (0, 1), // ModRM_0xff
    (0, 1), // ModRM_0x0f00
    (0, 1), // ModRM_0x0f01
    (73, 74), // Gv_Ew_LAR
    (74, 75), // Gv_Ew_LSL
    (0, 1), // ModRM_0x0f0d
    (0, 1), // ModRM_0x0f0f
    (0, 1), // ModRM_0x0f18
    (75, 76), // Ev
    (0, 1), // Rq_Cq_0
    (0, 1), // Rq_Dq_0
    (0, 1), // Cq_Rq_0
    (0, 1), // Dq_Rq_0
    (0, 1), // ModRM_0x0f71
    (0, 1), // ModRM_0x0f72
    (0, 1), // ModRM_0x0f73
    (76, 77), // Eb_R0
    (77, 78), // FS
    (78, 79), // Ev_Gv_Ib
    (79, 80), // Ev_Gv_CL
    (80, 81), // GS
    (0, 1), // ModRM_0x0fae
    (81, 88), // INV_Gv_M
    (88, 89), // Gv_Eb
    (89, 90), // Gv_Ew
    (0, 1), // ModRM_0x0fba
    (0, 1), // ModRM_0x0fc7
    (90, 91), // Gd_Ed
    (91, 92), // G_E_mm
    (92, 93), // G_E_xmm
    (93, 94), // E_G_xmm
    (0, 1), // ModRM_0x0f12
    (0, 1), // ModRM_0x0f16
    (94, 96), // M_G_xmm
    (96, 97), // G_xmm_E_mm
    (97, 98), // G_mm_E_xmm
    (98, 99), // PMOVX_G_E_xmm
    (99, 101), // Gd_U_xmm
    (101, 102), // G_mm_Edq
    (102, 103), // G_mm_E
    (103, 104), // G_E_mm_Ib
    (104, 105), // E_G_q
    (105, 106), // G_E_q
    (106, 107), // Edq_G_mm
    (107, 108), // E_G_mm
    (108, 109), // G_E_xmm_Ib
    (109, 111), // Mdq_Gdq
    (111, 112), // G_mm_Ew_Ib
    (112, 114), // Rv_Gmm_Ib
    (114, 116), // G_U_mm
    (116, 118), // G_Mq_mm
    (118, 120), // G_mm_U_mm
    (120, 121), // G_xmm_Edq
    (0, 1), // ModRM_0x660f78
    (121, 123), // G_U_xmm
    (123, 125), // Edq_G_xmm
    (125, 126), // G_xmm_Ew_Ib
    (126, 128), // G_U_xmm_Ub
    (128, 129), // PMOVX_E_G_xmm
    (129, 131), // MASKMOVDQU
    (131, 132), // G_Ed_xmm
    (132, 133), // Ed_G_xmm
    (0, 1), // ModRM_0xf30f1e
    (133, 134), // Gv_E_xmm
    (134, 135), // MOVQ_f30f
    (135, 137), // G_xmm_U_mm
    (137, 138), // Gdq_Eq_xmm
    (0, 1), // ModRM_0xf20f78
    (138, 140), // G_mm_U_xmm
    (140, 142), // G_M_xmm
    (142, 144), // G_Mq_xmm
    (144, 146), // M_Gv
    (146, 149), // MOVDIR64B
    (0, 1), // ModRM_0xf30f38d8
    (0, 1), // ModRM_0xf30f38dc
    (0, 1), // ModRM_0xf30f38dd
    (0, 1), // ModRM_0xf30f38de
    (0, 1), // ModRM_0xf30f38df
    (0, 1), // ModRM_0xf30f38fa
    (0, 1), // ModRM_0xf30f38fb
    (149, 150), // Gdq_Ev
    (150, 151), // G_E_xmm_Ub
    (151, 152), // Ev_G_xmm_Ib
    (152, 154), // Pextr_dq
    (154, 155), // G_Ev_xmm_Ib
    (155, 157), // Pinsr_dq
    (0, 1), // ModRM_0xf30f3af0
];

/// The head of each form by the number that words have for it. A form that carries a number has eight.
pub(crate) const HEADS: &[Head; 200] = &[
    head!(Search 0), // the number 0, which no form has
    head!(Nothing 1), // Zv_R
    head!(Nothing 1), // Zv_R
    head!(Nothing 1), // Zv_R
    head!(Nothing 1), // Zv_R
    head!(Nothing 1), // Zv_R
    head!(Nothing 1), // Zv_R
    head!(Nothing 1), // Zv_R
    head!(Nothing 1), // Zv_R
    head!(Search 0), // Zv_AX_R
    head!(Search 0), // Zv_AX_R
    head!(Search 0), // Zv_AX_R
    head!(Search 0), // Zv_AX_R
    head!(Search 0), // Zv_AX_R
    head!(Search 0), // Zv_AX_R
    head!(Search 0), // Zv_AX_R
    head!(Search 0), // Zv_AX_R
    head!(Nothing 4), // Zb_Ib_R
    head!(Nothing 4), // Zb_Ib_R
    head!(Nothing 4), // Zb_Ib_R
    head!(Nothing 4), // Zb_Ib_R
    head!(Nothing 4), // Zb_Ib_R
    head!(Nothing 4), // Zb_Ib_R
    head!(Nothing 4), // Zb_Ib_R
    head!(Nothing 4), // Zb_Ib_R
    head!(Nothing 5), // Zv_Ivq_R
    head!(Nothing 5), // Zv_Ivq_R
    head!(Nothing 5), // Zv_Ivq_R
    head!(Nothing 5), // Zv_Ivq_R
    head!(Nothing 5), // Zv_Ivq_R
    head!(Nothing 5), // Zv_Ivq_R
    head!(Nothing 5), // Zv_Ivq_R
    head!(Nothing 5), // Zv_Ivq_R
    head!(Nothing 6), // Zv_B
    head!(Nothing 6), // Zv_B
    head!(Nothing 6), // Zv_B
    head!(Nothing 6), // Zv_B
    head!(Nothing 6), // Zv_B
    head!(Nothing 6), // Zv_B
    head!(Nothing 6), // Zv_B
    head!(Nothing 6), // Zv_B
    head!(Fields 7), // Eb_Gb
    head!(Fields 8), // Ev_Gv
    head!(Fields 9), // Gb_Eb
    head!(Fields 10), // Gv_Ev
    head!(Nothing 11), // AL_Ibs
    head!(Nothing 12), // AX_Ivd
    head!(Fields 13), // Gdq_Ed
    head!(Nothing 14), // PushIvs
    head!(Fields 15), // Gv_Ev_Iv
    head!(Nothing 16), // PushIbs
    head!(Fields 17), // Gv_Ev_Ib
    head!(Search 0), // Yb_DX
    head!(Search 0), // Yv_DX
    head!(Search 0), // DX_Xb
    head!(Search 0), // DX_Xv
    head!(Nothing 24), // Ibs
    head!(Cells 0), // ModRM_0x80
    head!(Cells 0), // ModRM_0x81
    head!(Cells 0), // ModRM_0x83
    head!(Search 0), // Ew_Sw
    head!(Fields 28), // Gv_M
    head!(Search 0), // Sw_Ew
    head!(Cells 0), // ModRM_0x8f
    head!(Search 0), // CVT_AA
    head!(Search 0), // CVT_DA
    head!(Nothing 40), // Nothing
    head!(Nothing 41), // AH
    head!(Search 0), // AL_Ob
    head!(Search 0), // AX_Ov
    head!(Search 0), // Ob_AL
    head!(Search 0), // Ov_AX
    head!(Search 0), // Yb_Xb
    head!(Search 0), // Yv_Xv
    head!(Search 0), // Yb_AL
    head!(Search 0), // Yv_AX
    head!(Search 0), // AL_Xb
    head!(Search 0), // AX_Xv
    head!(Cells 0), // ModRM_0xc0
    head!(Cells 0), // ModRM_0xc1
    head!(Nothing 54), // Iw
    head!(Cells 0), // ModRM_0xc6
    head!(Cells 0), // ModRM_0xc7
    head!(Search 0), // Iw_Ib
    head!(Nothing 56), // I_3
    head!(Nothing 57), // Ib
    head!(Search 0), // Fw
    head!(Cells 0), // ModRM_0xd0
    head!(Cells 0), // ModRM_0xd1
    head!(Cells 0), // ModRM_0xd2
    head!(Cells 0), // ModRM_0xd3
    head!(Cells 0), // x87_d8
    head!(Cells 0), // x87_d9
    head!(Cells 0), // x87_da
    head!(Cells 0), // x87_db
    head!(Cells 0), // x87_dc
    head!(Cells 0), // x87_dd
    head!(Cells 0), // x87_de
    head!(Cells 0), // x87_df
    head!(Search 0), // CXZ
    head!(Nothing 63), // AL_Ib
    head!(Nothing 64), // AX_Ib
    head!(Nothing 65), // Ib_AL
    head!(Nothing 66), // Ib_AX
    head!(Nothing 67), // Jvds
    head!(Nothing 68), // AL_DX
    head!(Nothing 69), // AX_DX
    head!(Nothing 70), // DX_AL
    head!(Nothing 71), // DX_AX
    head!(Nothing 72), // I_1
    head!(Cells 0), // ModRM_0xf6
    head!(Cells 0), // ModRM_0xf7
    head!(Cells 0), // ModRM_0xfe
    head!(Cells 0), // ModRM_0xff
    head!(Cells 0), // ModRM_0x0f00
    head!(Cells 0), // ModRM_0x0f01
    head!(Fields 73), // Gv_Ew_LAR
    head!(Fields 74), // Gv_Ew_LSL
    head!(Cells 0), // ModRM_0x0f0d
    head!(Cells 0), // ModRM_0x0f0f
    head!(Cells 0), // ModRM_0x0f18
    head!(Fields 75), // Ev
    head!(Search 0), // Rq_Cq_0
    head!(Search 0), // Rq_Dq_0
    head!(Search 0), // Cq_Rq_0
    head!(Search 0), // Dq_Rq_0
    head!(Cells 0), // ModRM_0x0f71
    head!(Cells 0), // ModRM_0x0f72
    head!(Cells 0), // ModRM_0x0f73
    head!(Fields 76), // Eb_R0
    head!(Nothing 77), // FS
    head!(Fields 78), // Ev_Gv_Ib
    head!(Fields 79), // Ev_Gv_CL
    head!(Nothing 80), // GS
    head!(Cells 0), // ModRM_0x0fae
    head!(Search 0), // INV_Gv_M
    head!(Fields 88), // Gv_Eb
    head!(Fields 89), // Gv_Ew
    head!(Cells 0), // ModRM_0x0fba
    head!(Cells 0), // ModRM_0x0fc7
    head!(Fields 90), // Gd_Ed
    head!(Fields 91), // G_E_mm
    head!(Fields 92), // G_E_xmm
    head!(Fields 93), // E_G_xmm
    head!(Cells 0), // ModRM_0x0f12
    head!(Cells 0), // ModRM_0x0f16
    head!(Fields 94), // M_G_xmm
    head!(Fields 96), // G_xmm_E_mm
    head!(Fields 97), // G_mm_E_xmm
    head!(Fields 98), // PMOVX_G_E_xmm
    head!(Fields 99), // Gd_U_xmm
    head!(Fields 101), // G_mm_Edq
    head!(Fields 102), // G_mm_E
    head!(Fields 103), // G_E_mm_Ib
    head!(Fields 104), // E_G_q
    head!(Fields 105), // G_E_q
    head!(Fields 106), // Edq_G_mm
    head!(Fields 107), // E_G_mm
    head!(Fields 108), // G_E_xmm_Ib
    head!(Fields 109), // Mdq_Gdq
    head!(Fields 111), // G_mm_Ew_Ib
    head!(Fields 112), // Rv_Gmm_Ib
    head!(Fields 114), // G_U_mm
    head!(Fields 116), // G_Mq_mm
    head!(Fields 118), // G_mm_U_mm
    head!(Fields 120), // G_xmm_Edq
    head!(Cells 0), // ModRM_0x660f78
    head!(Fields 121), // G_U_xmm
    head!(Search 0), // Edq_G_xmm
    head!(Fields 125), // G_xmm_Ew_Ib
    head!(Fields 126), // G_U_xmm_Ub
    head!(Fields 128), // PMOVX_E_G_xmm
    head!(Fields 129), // MASKMOVDQU
    head!(Fields 131), // G_Ed_xmm
    head!(Fields 132), // Ed_G_xmm
    head!(Cells 0), // ModRM_0xf30f1e
    head!(Fields 133), // Gv_E_xmm
    head!(Fields 134), // MOVQ_f30f
    head!(Fields 135), // G_xmm_U_mm
    head!(Fields 137), // Gdq_Eq_xmm
    head!(Cells 0), // ModRM_0xf20f78
    head!(Fields 138), // G_mm_U_xmm
    head!(Fields 140), // G_M_xmm
    head!(Fields 142), // G_Mq_xmm
    head!(Fields 144), // M_Gv
    head!(Search 0), // MOVDIR64B
    head!(Cells 0), // ModRM_0xf30f38d8
    head!(Cells 0), // ModRM_0xf30f38dc
    head!(Cells 0), // ModRM_0xf30f38dd
    head!(Cells 0), // ModRM_0xf30f38de
    head!(Cells 0), // ModRM_0xf30f38df
    head!(Cells 0), // ModRM_0xf30f38fa
    head!(Cells 0), // ModRM_0xf30f38fb
    head!(Fields 149), // Gdq_Ev
    head!(Fields 150), // G_E_xmm_Ub
    head!(Fields 151), // Ev_G_xmm_Ib
    head!(Search 0), // Pextr_dq
    head!(Fields 154), // G_Ev_xmm_Ib
    head!(Search 0), // Pinsr_dq
    head!(Search 0), // ModRM_0xf30f3af0
];
