//! The rows of the groups: where, the prefixes, and what is there. A name is the number of an opcode, which
//! the comment spells, and 0 is none.
//!
//! Written by tools/tables.py from specs/Rows.antt.
//! The proof doesn't rest on that script: a wrong entry is refused.
use crate::cells::{Cell, cell};
use x86_operands::rows::Names::{ByReg, ByRm, Name, Own};
use x86_operands::rows::When::{Always, F2, F3, NoPrefix, NoRepeat, Only66, RexR, RexW, With66};
use x86_operands::rows::{Reg, Rm, TemplateRow};
use x86_operands::vocabulary::OperandEncoding::{
    ConstantI8, Cr, Dr, I8, Implied, Iv, Jv, RdInReg, U8, X8,
};
use x86_operands::vocabulary::{OperandEncoding, RegisterSlot};
use x86_operands::{read, refused, suffixed};
use x86_regs::RegisterClass;

const ABSENT: OperandEncoding = OperandEncoding::ABSENT;

const SIGNED_ONE: OperandEncoding = ConstantI8(1);

const CL: OperandEncoding = Implied(RegisterSlot::Reg, 1, RegisterClass::B);

const ECX: OperandEncoding = Implied(RegisterSlot::Reg, 1, RegisterClass::D);

const ST0: OperandEncoding = Implied(RegisterSlot::Reg, 0, RegisterClass::ST);

const ECX_IN_RM: OperandEncoding = Implied(RegisterSlot::Rm, 1, RegisterClass::D);

const EDX_IN_RM: OperandEncoding = Implied(RegisterSlot::Rm, 2, RegisterClass::D);

const ECX_THIRD: OperandEncoding = Implied(RegisterSlot::Third, 1, RegisterClass::D);

/// The rows of all forms, after that of a form that has none.
pub(crate) const ROWS: &[TemplateRow; 222] = &[
    refused!(Either Reg::Any, Rm::Any; Always; NO B false B ABSENT, ABSENT; Incomplete),
    read!(Either Reg::Any, Rm::Any; Always; ByReg([1, 2, 3, 4, 5, 6, 7, 8]); E_I B false B I8, ABSENT; One One), // 80 ADD OR ADC SBB AND SUB XOR CMP
    read!(Either Reg::Any, Rm::Any; Always; ByReg([1, 2, 3, 4, 5, 6, 7, 8]); E_I B false V Iv, ABSENT; V V), // 81 ADD OR ADC SBB AND SUB XOR CMP
    read!(Either Reg::Any, Rm::Any; Always; ByReg([1, 2, 3, 4, 5, 6, 7, 8]); E_I B false V I8, ABSENT; V V), // 83 ADD OR ADC SBB AND SUB XOR CMP
    read!(Either Reg::Is(0), Rm::Any; With66; Name(10); E B false V ABSENT, ABSENT; V V), // 8f POP
    read!(Either Reg::Is(0), Rm::Any; Always; Name(10); E B false V ABSENT, ABSENT; Eight V), // 8f POP
    refused!(Either Reg::Any, Rm::Any; Always; E B false Q ABSENT, ABSENT; Incomplete), // 8f
    read!(Either Reg::Any, Rm::Any; Always; ByReg([624, 625, 612, 613, 637, 638, 627, 628]); E_I B false B I8, ABSENT; One One), // c0 ROL ROR RCL RCR SHL SHR SAL SAR
    read!(Either Reg::Any, Rm::Any; Always; ByReg([624, 625, 612, 613, 637, 638, 627, 628]); E_I B false V I8, ABSENT; V V), // c1 ROL ROR RCL RCR SHL SHR SAL SAR
    read!(Either Reg::Is(0), Rm::Any; Always; Name(33); E_I B false B I8, ABSENT; One One), // c6 MOV
    read!(Register Reg::Any, Rm::Is(0); Always; Name(674); I B false B I8, ABSENT; One One), // c6 XABORT
    refused!(Either Reg::Any, Rm::Any; Always; E B false Q ABSENT, ABSENT; BadOperand), // c6
    read!(Either Reg::Is(0), Rm::Any; Always; Name(33); E_I B false V Iv, ABSENT; V V), // c7 MOV
    read!(Register Reg::Any, Rm::Is(0); Always; Name(675); I B false B Jv, ABSENT; V V), // c7 XBEGIN
    refused!(Either Reg::Any, Rm::Any; Always; E B false Q ABSENT, ABSENT; BadOperand), // c7
    read!(Either Reg::Any, Rm::Any; Always; ByReg([624, 625, 612, 613, 637, 638, 627, 628]); E_I B false B SIGNED_ONE, ABSENT; One One), // d0 ROL ROR RCL RCR SHL SHR SAL SAR
    read!(Either Reg::Any, Rm::Any; Always; ByReg([624, 625, 612, 613, 637, 638, 627, 628]); E_I B false V SIGNED_ONE, ABSENT; V V), // d1 ROL ROR RCL RCR SHL SHR SAL SAR
    read!(Either Reg::Any, Rm::Any; Always; ByReg([624, 625, 612, 613, 637, 638, 627, 628]); E_I B false B CL, ABSENT; One One), // d2 ROL ROR RCL RCR SHL SHR SAL SAR
    read!(Either Reg::Any, Rm::Any; Always; ByReg([624, 625, 612, 613, 637, 638, 627, 628]); E_I B false V CL, ABSENT; V V), // d3 ROL ROR RCL RCR SHL SHR SAL SAR
    read!(Memory Reg::Any, Rm::Any; Always; ByReg([454, 505, 467, 470, 528, 530, 475, 477]); I_E B false Q ST0, ABSENT; Four Four), // d8 FADD FMUL FCOM FCOMP FSUB FSUBR FDIV FDIVR
    read!(Register Reg::Any, Rm::Any; Always; ByReg([454, 505, 467, 470, 528, 530, 475, 477]); I_E B false St ST0, ABSENT; Zero Zero), // d8 FADD FMUL FCOM FCOMP FSUB FSUBR FDIV FDIVR
    read!(Memory Reg::Is(0), Rm::Any; Always; Name(495); I_E B false Q ST0, ABSENT; Four Four), // d9 FLD
    read!(Memory Reg::Is(2), Rm::Any; Always; Name(525); E_I B false Q ST0, ABSENT; Four Four), // d9 FST
    read!(Memory Reg::Is(3), Rm::Any; Always; Name(526); E_I B false Q ST0, ABSENT; Four Four), // d9 FSTP
    read!(Memory Reg::Any, Rm::Any; Always; ByReg([0, 0, 0, 0, 498, 0, 512, 0]); E B false Q ABSENT, ABSENT; Undecided Undecided), // d9 - - - - FLDENV - FNSTENV -
    read!(Memory Reg::Any, Rm::Any; Always; ByReg([0, 0, 0, 0, 0, 497, 0, 511]); E B false Q ABSENT, ABSENT; Two Two), // d9 - - - - - FLDCW - FNSTCW
    read!(Register Reg::Any, Rm::Any; Always; ByReg([495, 539, 0, 0, 0, 0, 0, 0]); I_E B false St ST0, ABSENT; Zero Zero), // d9 FLD FXCH - - - - - -
    read!(Register Reg::Is(2), Rm::Is(0); Always; Name(509); NO B false B ABSENT, ABSENT; Zero Zero), // d9 FNOP
    read!(Register Reg::Is(3), Rm::Any; Always; Name(527); E_I B false St ST0, ABSENT; Zero Zero), // d9 FSTPNCE
    read!(Register Reg::Is(4), Rm::Any; Always; ByRm([458, 453, 0, 0, 532, 538, 0, 0]); NO B false B ABSENT, ABSENT; Zero Zero), // d9 FCHS FABS - - FTST FXAM - -
    read!(Register Reg::Is(5), Rm::Any; Always; ByRm([496, 500, 499, 503, 501, 502, 504, 0]); NO B false B ABSENT, ABSENT; Zero Zero), // d9 FLD1 FLDL2T FLDL2E FLDPI FLDLG2 FLDLN2 FLDZ -
    read!(Register Reg::Is(6), Rm::Any; Always; ByRm([452, 543, 517, 514, 542, 516, 473, 489]); NO B false B ABSENT, ABSENT; Zero Zero), // d9 F2XM1 FYL2X FPTAN FPATAN FXTRACT FPREM1 FDECSTP FINCSTP
    read!(Register Reg::Is(7), Rm::Any; Always; ByRm([515, 544, 524, 523, 518, 520, 522, 472]); NO B false B ABSENT, ABSENT; Zero Zero), // d9 FPREM FYL2XP1 FSQRT FSINCOS FRNDINT FSCALE FSIN FCOS
    refused!(Either Reg::Any, Rm::Any; Always; NO B false B ABSENT, ABSENT; BadOpcode), // d9
    read!(Memory Reg::Any, Rm::Any; Always; ByReg([482, 488, 483, 484, 493, 494, 485, 486]); I_E B false Q ST0, ABSENT; Four Four), // da FIADD FIMUL FICOM FICOMP FISUB FISUBR FIDIV FIDIVR
    read!(Register Reg::Any, Rm::Any; Always; ByReg([459, 461, 460, 466, 0, 0, 0, 0]); I_E B false St ST0, ABSENT; Zero Zero), // da FCMOVB FCMOVE FCMOVBE FCMOVU - - - -
    read!(Register Reg::Is(5), Rm::Is(1); Always; Name(537); NO B false B ABSENT, ABSENT; Zero Zero), // da FUCOMPP
    refused!(Either Reg::Any, Rm::Any; Always; NO B false B ABSENT, ABSENT; BadOpcode), // da
    read!(Memory Reg::Is(0), Rm::Any; Always; Name(487); I_E B false Q ST0, ABSENT; Four Four), // db FILD
    read!(Memory Reg::Any, Rm::Any; Always; ByReg([0, 492, 490, 491, 0, 0, 0, 0]); E_I B false Q ST0, ABSENT; Four Four), // db - FISTTP FIST FISTP - - - -
    read!(Memory Reg::Is(5), Rm::Any; Always; Name(495); I_E B false Q ST0, ABSENT; Ten Ten), // db FLD
    read!(Memory Reg::Is(7), Rm::Any; Always; Name(526); E_I B false Q ST0, ABSENT; Ten Ten), // db FSTP
    read!(Register Reg::Any, Rm::Any; Always; ByReg([462, 464, 463, 465, 0, 534, 468, 0]); I_E B false St ST0, ABSENT; Zero Zero), // db FCMOVNB FCMOVNE FCMOVNBE FCMOVNU - FUCOMI FCOMI -
    read!(Register Reg::Is(4), Rm::Any; Always; ByRm([479, 474, 507, 508, 521, 0, 0, 0]); NO B false B ABSENT, ABSENT; Zero Zero), // db FENI8087_NOP FDISI8087_NOP FNCLEX FNINIT FSETPM287_NOP - - -
    refused!(Either Reg::Any, Rm::Any; Always; NO B false B ABSENT, ABSENT; BadOpcode), // db
    read!(Memory Reg::Any, Rm::Any; Always; ByReg([454, 505, 467, 470, 528, 530, 475, 477]); I_E B false Q ST0, ABSENT; Eight Eight), // dc FADD FMUL FCOM FCOMP FSUB FSUBR FDIV FDIVR
    read!(Register Reg::Any, Rm::Any; Always; ByReg([0, 0, 467, 470, 0, 0, 0, 0]); I_E B false St ST0, ABSENT; Zero Zero), // dc - - FCOM FCOMP - - - -
    read!(Register Reg::Any, Rm::Any; Always; ByReg([454, 505, 0, 0, 530, 528, 477, 475]); E_I B false St ST0, ABSENT; Zero Zero), // dc FADD FMUL - - FSUBR FSUB FDIVR FDIV
    read!(Memory Reg::Is(0), Rm::Any; Always; Name(495); I_E B false Q ST0, ABSENT; Eight Eight), // dd FLD
    read!(Memory Reg::Any, Rm::Any; Always; ByReg([0, 492, 525, 526, 0, 0, 0, 0]); E_I B false Q ST0, ABSENT; Eight Eight), // dd - FISTTP FST FSTP - - - -
    read!(Memory Reg::Any, Rm::Any; Always; ByReg([0, 0, 0, 0, 519, 0, 510, 0]); E B false Q ABSENT, ABSENT; Undecided Undecided), // dd - - - - FRSTOR - FNSAVE -
    read!(Memory Reg::Is(7), Rm::Any; Always; Name(513); E B false Q ABSENT, ABSENT; Two Two), // dd FNSTSW
    read!(Register Reg::Is(0), Rm::Any; Always; Name(480); E B false St ABSENT, ABSENT; Zero Zero), // dd FFREE
    read!(Register Reg::Any, Rm::Any; Always; ByReg([0, 539, 0, 0, 533, 536, 0, 0]); I_E B false St ST0, ABSENT; Zero Zero), // dd - FXCH - - FUCOM FUCOMP - -
    read!(Register Reg::Any, Rm::Any; Always; ByReg([0, 0, 525, 526, 0, 0, 0, 0]); E_I B false St ST0, ABSENT; Zero Zero), // dd - - FST FSTP - - - -
    refused!(Either Reg::Any, Rm::Any; Always; NO B false B ABSENT, ABSENT; BadOpcode), // dd
    read!(Memory Reg::Any, Rm::Any; Always; ByReg([482, 488, 483, 484, 493, 494, 485, 486]); I_E B false Q ST0, ABSENT; Two Two), // de FIADD FIMUL FICOM FICOMP FISUB FISUBR FIDIV FIDIVR
    read!(Register Reg::Is(2), Rm::Any; Always; Name(470); I_E B false St ST0, ABSENT; Zero Zero), // de FCOMP
    read!(Register Reg::Is(3), Rm::Is(1); Always; Name(471); NO B false B ABSENT, ABSENT; Zero Zero), // de FCOMPP
    read!(Register Reg::Any, Rm::Any; Always; ByReg([455, 506, 0, 0, 531, 529, 478, 476]); E_I B false St ST0, ABSENT; Zero Zero), // de FADDP FMULP - - FSUBRP FSUBP FDIVRP FDIVP
    refused!(Either Reg::Any, Rm::Any; Always; NO B false B ABSENT, ABSENT; BadOperand), // de
    read!(Memory Reg::Is(0), Rm::Any; Always; Name(487); I_E B false Q ST0, ABSENT; Two Two), // df FILD
    read!(Memory Reg::Any, Rm::Any; Always; ByReg([0, 492, 490, 491, 0, 0, 0, 0]); E_I B false Q ST0, ABSENT; Two Two), // df - FISTTP FIST FISTP - - - -
    read!(Memory Reg::Is(4), Rm::Any; Always; Name(456); I_E B false Q ST0, ABSENT; Ten Ten), // df FBLD
    read!(Memory Reg::Is(5), Rm::Any; Always; Name(487); I_E B false Q ST0, ABSENT; Eight Eight), // df FILD
    read!(Memory Reg::Is(6), Rm::Any; Always; Name(457); E_I B false Q ST0, ABSENT; Ten Ten), // df FBSTP
    read!(Memory Reg::Is(7), Rm::Any; Always; Name(491); E_I B false Q ST0, ABSENT; Eight Eight), // df FISTP
    read!(Register Reg::Is(0), Rm::Any; Always; Name(481); E B false St ABSENT, ABSENT; Zero Zero), // df FFREEP
    read!(Register Reg::Any, Rm::Any; Always; ByReg([0, 539, 0, 0, 0, 535, 469, 0]); I_E B false St ST0, ABSENT; Zero Zero), // df - FXCH - - - FUCOMIP FCOMIP -
    read!(Register Reg::Any, Rm::Any; Always; ByReg([0, 0, 526, 526, 0, 0, 0, 0]); E_I B false St ST0, ABSENT; Zero Zero), // df - - FSTP FSTP - - - -
    read!(Register Reg::Is(4), Rm::Is(0); Always; Name(513); E B false W ABSENT, ABSENT; Zero Zero), // df FNSTSW
    refused!(Either Reg::Any, Rm::Any; Always; NO B false B ABSENT, ABSENT; BadOpcode), // df
    read!(Either Reg::Any, Rm::Any; Always; ByReg([31, 31, 0, 0, 0, 0, 0, 0]); E_I B false B I8, ABSENT; One One), // f6 TEST TEST - - - - - -
    read!(Either Reg::Any, Rm::Any; Always; ByReg([0, 0, 574, 573, 570, 12, 444, 546]); E B false B ABSENT, ABSENT; One One), // f6 - - NOT NEG MUL IMUL DIV IDIV
    read!(Either Reg::Any, Rm::Any; Always; ByReg([31, 31, 0, 0, 0, 0, 0, 0]); E_I B false V Iv, ABSENT; V V), // f7 TEST TEST - - - - - -
    read!(Either Reg::Any, Rm::Any; Always; ByReg([0, 0, 574, 573, 570, 12, 444, 546]); E B false V ABSENT, ABSENT; V V), // f7 - - NOT NEG MUL IMUL DIV IDIV
    read!(Either Reg::Any, Rm::Any; Always; ByReg([547, 443, 0, 0, 0, 0, 0, 0]); E B false B ABSENT, ABSENT; One One), // fe INC DEC - - - - - -
    refused!(Either Reg::Any, Rm::Any; Always; E B false Q ABSENT, ABSENT; BadOpcode), // fe
    read!(Either Reg::Any, Rm::Any; Always; ByReg([547, 443, 0, 0, 0, 0, 0, 0]); E B false V ABSENT, ABSENT; V V), // ff INC DEC - - - - - -
    read!(Either Reg::Is(2), Rm::Any; Always; Name(58); E B false Q ABSENT, ABSENT; Eight Eight), // ff CALL
    read!(Memory Reg::Is(3), Rm::Any; Always; Name(426); E B false Q ABSENT, ABSENT; Ten Ten), // ff CALLF
    read!(Either Reg::Is(4), Rm::Any; Always; Name(54); E B false Q ABSENT, ABSENT; Eight V), // ff JMP
    read!(Memory Reg::Is(5), Rm::Any; Always; Name(556); E B false Q ABSENT, ABSENT; Ten Ten), // ff JMPF
    read!(Either Reg::Is(6), Rm::Any; Always; Name(9); E B false V ABSENT, ABSENT; Vq Vq), // ff PUSH
    refused!(Register Reg::Is(3), Rm::Any; Always; NO B false B ABSENT, ABSENT; BadOperand), // ff
    refused!(Register Reg::Is(5), Rm::Any; Always; NO B false B ABSENT, ABSENT; BadOperand), // ff
    refused!(Either Reg::Any, Rm::Any; Always; E B false Q ABSENT, ABSENT; BadOpcode), // ff
    read!(Either Reg::Any, Rm::Any; Always; ByReg([641, 646, 561, 564, 656, 657, 0, 0]); E B false W ABSENT, ABSENT; Two Zero), // 0f00 SLDT STR LLDT LTR VERR VERW - -
    refused!(Either Reg::Any, Rm::Any; Always; NO B false B ABSENT, ABSENT; BadOperand), // 0f00
    read!(Memory Reg::Is(0), Rm::Any; Always; Name(636); E B false Q ABSENT, ABSENT; Ten Ten), // 0f01 SGDT
    read!(Memory Reg::Is(1), Rm::Any; Always; Name(639); E B false Q ABSENT, ABSENT; Ten Ten), // 0f01 SIDT
    read!(Memory Reg::Is(2), Rm::Any; Always; Name(559); E B false Q ABSENT, ABSENT; Ten Ten), // 0f01 LGDT
    read!(Memory Reg::Is(3), Rm::Any; Always; Name(560); E B false Q ABSENT, ABSENT; Ten Ten), // 0f01 LIDT
    read!(Memory Reg::Is(4), Rm::Any; Always; Name(642); E B false Q ABSENT, ABSENT; Two Two), // 0f01 SMSW
    read!(Memory Reg::Is(5), Rm::Any; F3; Name(626); E B false Q ABSENT, ABSENT; Eight Eight), // 0f01 RSTORSSP
    read!(Memory Reg::Is(6), Rm::Any; Always; Name(562); E B false Q ABSENT, ABSENT; Two Two), // 0f01 LMSW
    read!(Memory Reg::Is(7), Rm::Any; Always; Name(549); E B false Q ABSENT, ABSENT; One One), // 0f01 INVLPG
    read!(Register Reg::Is(0), Rm::Any; NoPrefix; ByRm([447, 658, 661, 666, 669, 576, 0, 0]); NO B false B ABSENT, ABSENT; Zero Zero), // 0f01 ENCLV VMCALL VMLAUNCH VMRESUME VMXOFF PCONFIG - -
    refused!(Register Reg::Is(0), Rm::Any; NoPrefix; NO B false B ABSENT, ABSENT; BadOpcode), // 0f01
    read!(Register Reg::Is(1), Rm::Is(0); NoPrefix; Name(566); NO B false B ABSENT, ABSENT; One One), // 0f01 MONITOR
    read!(Register Reg::Is(1), Rm::Any; NoPrefix; ByRm([0, 571, 430, 643, 0, 0, 0, 445]); NO B false B ABSENT, ABSENT; Zero Zero), // 0f01 - MWAIT CLAC STAC - - - ENCLS
    read!(Register Reg::Is(1), Rm::Any; Only66; ByRm([0, 0, 0, 0, 649, 632, 631, 630]); NO B false B ABSENT, ABSENT; Zero Zero), // 0f01 - - - - TDCALL SEAMRET SEAMOPS SEAMCALL
    read!(Register Reg::Is(2), Rm::Any; NoPrefix; ByRm([677, 688, 0, 0, 660, 676, 690, 446]); NO B false B ABSENT, ABSENT; Zero Zero), // 0f01 XGETBV XSETBV - - VMFUNC XEND XTEST ENCLU
    refused!(Register Reg::Is(2), Rm::Any; NoPrefix; NO B false B ABSENT, ABSENT; BadOpcode), // 0f01
    refused!(Register Reg::Is(0), Rm::Any; Always; NO B false B ABSENT, ABSENT; BadOperand), // 0f01
    refused!(Register Reg::Is(2), Rm::Any; Always; NO B false B ABSENT, ABSENT; BadOperand), // 0f01
    read!(Register Reg::Is(3), Rm::Is(0); Always; Name(667); R Q false B ABSENT, ABSENT; Zero Zero), // 0f01 VMRUN
    read!(Register Reg::Is(3), Rm::Is(2); Always; Name(662); R Q false B ABSENT, ABSENT; Zero Zero), // 0f01 VMLOAD
    read!(Register Reg::Is(3), Rm::Is(3); Always; Name(668); R Q false B ABSENT, ABSENT; Zero Zero), // 0f01 VMSAVE
    read!(Register Reg::Is(3), Rm::Is(6); Always; Name(640); R D false B ABSENT, ABSENT; Zero Zero), // 0f01 SKINIT
    read!(Register Reg::Is(3), Rm::Is(7); Always; Name(550); R_I Q false B ECX_IN_RM, ABSENT; Zero Zero), // 0f01 INVLPGA
    read!(Register Reg::Is(3), Rm::Any; Always; ByRm([0, 663, 0, 0, 644, 433, 0, 0]); NO B false B ABSENT, ABSENT; Zero Zero), // 0f01 - VMMCALL - - STGI CLGI - -
    read!(Register Reg::Is(4), Rm::Any; Always; Name(642); E B false V ABSENT, ABSENT; Two Two), // 0f01 SMSW
    read!(Register Reg::Is(5), Rm::Any; F2; ByRm([689, 678, 0, 0, 0, 0, 0, 0]); NO B false B ABSENT, ABSENT; Zero Zero), // 0f01 XSUSLDTRK XRESLDTRK - - - - - -
    read!(Register Reg::Is(5), Rm::Any; F3; ByRm([634, 0, 629, 0, 653, 650, 435, 647]); NO B false B ABSENT, ABSENT; Zero Zero), // 0f01 SETSSBSY - SAVEPREVSSP - UIRET TESTUI CLUI STUI
    read!(Register Reg::Is(5), Rm::Any; NoPrefix; ByRm([0, 0, 0, 0, 0, 0, 617, 673]); NO B false B ABSENT, ABSENT; Zero Zero), // 0f01 - - - - - - RDPKRU WRPKRU
    read!(Register Reg::Is(6), Rm::Any; Always; Name(562); E B false W ABSENT, ABSENT; Two Two), // 0f01 LMSW
    read!(Register Reg::Is(7), Rm::Any; Always; ByRm([648, 621, 567, 572, 437, 0, 0, 0]); NO B false B ABSENT, ABSENT; Zero Zero), // 0f01 SWAPGS RDTSCP MONITORX MWAITX CLZERO - - -
    read!(Register Reg::Is(7), Rm::Is(5); Always; Name(618); I B false B ECX, ABSENT; Zero Zero), // 0f01 RDPRU
    refused!(Register Reg::Is(7), Rm::Any; With66; NO B false B ABSENT, ABSENT; BadOperand), // 0f01
    read!(Register Reg::Is(7), Rm::Any; F3; ByRm([0, 0, 0, 0, 0, 0, 622, 607]); NO B false B ABSENT, ABSENT; Zero Zero), // 0f01 - - - - - - RMPADJUST PSMASH
    read!(Register Reg::Is(7), Rm::Any; F2; ByRm([0, 0, 0, 0, 0, 0, 623, 611]); NO B false B ABSENT, ABSENT; Zero Zero), // 0f01 - - - - - - RMPUPDATE PVALIDATE
    read!(Register Reg::Is(7), Rm::Is(6); Always; Name(551); R_I_X Q false B EDX_IN_RM, ECX_THIRD; Zero Zero), // 0f01 INVLPGB
    read!(Register Reg::Is(7), Rm::Is(7); Always; Name(651); NO B false B ABSENT, ABSENT; Zero Zero), // 0f01 TLBSYNC
    refused!(Either Reg::Any, Rm::Any; Always; NO B false B ABSENT, ABSENT; BadOpcode), // 0f01
    read!(Memory Reg::Is(1), Rm::Any; Always; Name(605); E B false Q ABSENT, ABSENT; SixtyFour SixtyFour), // 0f0d PREFETCHW
    read!(Memory Reg::Any, Rm::Any; Always; Name(76); E B false Q ABSENT, ABSENT; SixtyFour SixtyFour), // 0f0d NOP
    refused!(Either Reg::Any, Rm::Any; Always; NO B false B ABSENT, ABSENT; BadOperand), // 0f0d
    suffixed!(Either Reg::Any, Rm::Any; Always; G_E Mm false Mm ABSENT, ABSENT; Eight V), // 0f0f
    read!(Memory Reg::Any, Rm::Any; Always; ByReg([604, 601, 602, 603, 0, 0, 0, 0]); E B false V ABSENT, ABSENT; SixtyFour SixtyFour), // 0f18 PREFETCHNTA PREFETCH0 PREFETCH1 PREFETCH2 - - - -
    read!(Either Reg::Any, Rm::Any; Always; Name(76); E B false V ABSENT, ABSENT; SixtyFour V), // 0f18 NOP
    read!(Register Reg::Is(0), Rm::Any; Always; Own; E_I B false Q Cr, ABSENT; Zero Zero), // Rq_Cq_0
    refused!(Register Reg::From(2, 4), Rm::Any; RexR; NO B false B ABSENT, ABSENT; BadOperand), // Rq_Cq_0
    read!(Register Reg::From(2, 4), Rm::Any; Always; Own; E_I B false Q Cr, ABSENT; Zero Zero), // Rq_Cq_0
    refused!(Either Reg::Any, Rm::Any; Always; NO B false B ABSENT, ABSENT; BadOperand), // Rq_Cq_0
    refused!(Register Reg::Any, Rm::Any; RexR; NO B false B ABSENT, ABSENT; BadOperand), // Rq_Dq_0
    read!(Register Reg::Any, Rm::Any; Always; Own; E_I B false Q Dr, ABSENT; Zero Zero), // Rq_Dq_0
    read!(Register Reg::Is(0), Rm::Any; Always; Own; I_E B false Q Cr, ABSENT; Zero Zero), // Cq_Rq_0
    refused!(Register Reg::From(2, 4), Rm::Any; RexR; NO B false B ABSENT, ABSENT; BadOperand), // Cq_Rq_0
    read!(Register Reg::From(2, 4), Rm::Any; Always; Own; I_E B false Q Cr, ABSENT; Zero Zero), // Cq_Rq_0
    refused!(Either Reg::Any, Rm::Any; Always; NO B false B ABSENT, ABSENT; BadOperand), // Cq_Rq_0
    refused!(Register Reg::Any, Rm::Any; RexR; NO B false B ABSENT, ABSENT; BadOperand), // Dq_Rq_0
    read!(Register Reg::Any, Rm::Any; Always; Own; I_E B false Q Dr, ABSENT; Zero Zero), // Dq_Rq_0
    read!(Register Reg::Any, Rm::Any; Only66; ByReg([0, 0, 151, 0, 165, 0, 178, 0]); E_I B false X U8, ABSENT; V V), // 0f71 - - PSRLW - PSRAW - PSLLW -
    read!(Register Reg::Any, Rm::Any; NoPrefix; ByReg([0, 0, 151, 0, 165, 0, 178, 0]); E_I B false Mm U8, ABSENT; V V), // 0f71 - - PSRLW - PSRAW - PSLLW -
    refused!(Register Reg::Any, Rm::Any; NoRepeat; E B false Q ABSENT, ABSENT; BadOpcode), // 0f71
    refused!(Either Reg::Any, Rm::Any; Always; E B false Q ABSENT, ABSENT; BadOperand), // 0f71
    read!(Register Reg::Any, Rm::Any; Only66; ByReg([0, 0, 152, 0, 166, 0, 179, 0]); E_I B false X U8, ABSENT; V V), // 0f72 - - PSRLD - PSRAD - PSLLD -
    read!(Register Reg::Any, Rm::Any; NoPrefix; ByReg([0, 0, 152, 0, 166, 0, 179, 0]); E_I B false Mm U8, ABSENT; V V), // 0f72 - - PSRLD - PSRAD - PSLLD -
    refused!(Register Reg::Any, Rm::Any; NoRepeat; E B false Q ABSENT, ABSENT; BadOpcode), // 0f72
    refused!(Either Reg::Any, Rm::Any; Always; E B false Q ABSENT, ABSENT; BadOperand), // 0f72
    read!(Register Reg::Any, Rm::Any; Only66; ByReg([0, 0, 153, 608, 0, 0, 180, 606]); E_I B false X U8, ABSENT; V V), // 0f73 - - PSRLQ PSRLDQ - - PSLLQ PSLLDQ
    read!(Register Reg::Any, Rm::Any; NoPrefix; ByReg([0, 0, 153, 0, 0, 0, 180, 0]); E_I B false Mm U8, ABSENT; V V), // 0f73 - - PSRLQ - - - PSLLQ -
    refused!(Register Reg::Is(3), Rm::Any; NoPrefix; E B false Q ABSENT, ABSENT; BadOperand), // 0f73
    refused!(Register Reg::Is(7), Rm::Any; NoPrefix; E B false Q ABSENT, ABSENT; BadOperand), // 0f73
    refused!(Register Reg::Any, Rm::Any; NoRepeat; E B false Q ABSENT, ABSENT; BadOpcode), // 0f73
    refused!(Either Reg::Any, Rm::Any; Always; E B false Q ABSENT, ABSENT; BadOperand), // 0f73
    read!(Register Reg::Is(6), Rm::Any; F2; Name(655); I B false B RdInReg, ABSENT; Zero Zero), // 0fae UMWAIT
    refused!(Memory Reg::Any, Rm::Any; F2; NO B false B ABSENT, ABSENT; BadOperand), // 0fae
    refused!(Either Reg::Is(4), Rm::Any; With66; NO B false B ABSENT, ABSENT; BadOpcode), // 0fae
    read!(Either Reg::Is(4), Rm::Any; F3; Name(610); E B false Dq ABSENT, ABSENT; Dq Zero), // 0fae PTWRITE
    read!(Memory Reg::Is(6), Rm::Any; F3; Name(434); E B false Q ABSENT, ABSENT; Eight Eight), // 0fae CLRSSBSY
    refused!(Memory Reg::Any, Rm::Any; F3; NO B false B ABSENT, ABSENT; BadOperand), // 0fae
    read!(Register Reg::Any, Rm::Any; F3; ByReg([614, 615, 671, 672, 0, 548, 0, 0]); E B false Dq ABSENT, ABSENT; Zero Zero), // 0fae RDFSBASE RDGSBASE WRFSBASE WRGSBASE - INCSSP - -
    read!(Register Reg::Is(6), Rm::Any; F3; Name(654); E B false Q ABSENT, ABSENT; Zero Zero), // 0fae UMONITOR
    read!(Memory Reg::Is(6), Rm::Any; Only66; Name(436); E B false Q ABSENT, ABSENT; SixtyFour SixtyFour; ClearsOperandSize), // 0fae CLWB
    read!(Memory Reg::Is(7), Rm::Any; Only66; Name(432); E B false Q ABSENT, ABSENT; SixtyFour SixtyFour; ClearsOperandSize), // 0fae CLFLUSHOPT
    read!(Register Reg::Is(6), Rm::Any; Only66; Name(652); E B false D ABSENT, ABSENT; Zero Zero; ClearsOperandSize), // 0fae TPAUSE
    read!(Memory Reg::Any, Rm::Any; NoPrefix; ByReg([541, 540, 0, 0, 682, 679, 685, 0]); E B false Q ABSENT, ABSENT; Undecided Undecided), // 0fae FXSAVE FXRSTOR - - XSAVE XRSTOR XSAVEOPT -
    read!(Memory Reg::Any, Rm::Any; NoPrefix; ByReg([0, 0, 557, 645, 0, 0, 0, 0]); E B false Q ABSENT, ABSENT; Four Four), // 0fae - - LDMXCSR STMXCSR - - - -
    read!(Memory Reg::Is(7), Rm::Any; NoPrefix; Name(431); E B false Q ABSENT, ABSENT; SixtyFour SixtyFour), // 0fae CLFLUSH
    read!(Register Reg::Any, Rm::ZeroIfStrict; NoPrefix; ByReg([0, 0, 0, 0, 0, 558, 565, 635]); NO B false B ABSENT, ABSENT; Zero Zero), // 0fae - - - - - LFENCE MFENCE SFENCE
    refused!(Register Reg::From(5, 7), Rm::Any; NoPrefix; NO B false B ABSENT, ABSENT; BadOperand), // 0fae
    refused!(Either Reg::Any, Rm::Any; Always; NO B false B ABSENT, ABSENT; BadOpcode), // 0fae
    read!(Either Reg::Any, Rm::Any; Always; ByReg([0, 0, 0, 0, 118, 119, 120, 121]); E_I B false Vq I8, ABSENT; Vq Zero), // 0fba - - - - BT BTS BTR BTC
    refused!(Either Reg::Any, Rm::Any; Always; NO B false B ABSENT, ABSENT; BadOpcode), // 0fba
    read!(Memory Reg::Is(1), Rm::Any; RexW; Name(438); E B false Q ABSENT, ABSENT; Sixteen Sixteen), // 0fc7 CMPXCHG16B
    read!(Memory Reg::Is(1), Rm::Any; Always; Name(439); E B false Q ABSENT, ABSENT; Eight Eight), // 0fc7 CMPXCHG8B
    refused!(Either Reg::Is(1), Rm::Any; Always; NO B false B ABSENT, ABSENT; BadOperand), // 0fc7
    refused!(Either Reg::Any, Rm::Any; F2; NO B false B ABSENT, ABSENT; BadOperand), // 0fc7
    read!(Memory Reg::Is(6), Rm::Any; With66; Name(659); E B false Q ABSENT, ABSENT; Eight Eight), // 0fc7 VMCLEAR
    read!(Register Reg::Any, Rm::Any; With66; ByReg([0, 0, 0, 0, 0, 0, 619, 620]); E B false W ABSENT, ABSENT; Zero Zero), // 0fc7 - - - - - - RDRAND RDSEED
    refused!(Memory Reg::Is(7), Rm::Any; With66; E B false Q ABSENT, ABSENT; BadOpcode), // 0fc7
    refused!(Either Reg::Any, Rm::Any; With66; NO B false B ABSENT, ABSENT; BadOpcode), // 0fc7
    read!(Memory Reg::Is(6), Rm::Any; F3; Name(670); E B false Q ABSENT, ABSENT; Eight Eight), // 0fc7 VMXON
    read!(Register Reg::Any, Rm::Any; F3; ByReg([0, 0, 0, 0, 0, 0, 633, 616]); E B false Q ABSENT, ABSENT; Zero Zero), // 0fc7 - - - - - - SENDUIPI RDPID
    refused!(Memory Reg::Is(7), Rm::Any; F3; E B false Q ABSENT, ABSENT; BadOperand), // 0fc7
    refused!(Either Reg::Any, Rm::Any; F3; NO B false B ABSENT, ABSENT; BadOpcode), // 0fc7
    read!(Memory Reg::Any, Rm::Any; RexW; ByReg([0, 0, 0, 681, 684, 687, 0, 0]); E B false Q ABSENT, ABSENT; Undecided Undecided), // 0fc7 - - - XRSTORS64 XSAVEC64 XSAVES64 - -
    read!(Memory Reg::Any, Rm::Any; Always; ByReg([0, 0, 0, 680, 683, 686, 0, 0]); E B false Q ABSENT, ABSENT; Undecided Undecided), // 0fc7 - - - XRSTORS XSAVEC XSAVES - -
    read!(Memory Reg::Any, Rm::Any; Always; ByReg([0, 0, 0, 0, 0, 0, 664, 665]); E B false Q ABSENT, ABSENT; Eight Eight), // 0fc7 - - - - - - VMPTRLD VMPTRST
    read!(Register Reg::Any, Rm::Any; Always; ByReg([0, 0, 0, 0, 0, 0, 619, 620]); E B false V ABSENT, ABSENT; Zero Zero), // 0fc7 - - - - - - RDRAND RDSEED
    refused!(Either Reg::Any, Rm::Any; Always; NO B false B ABSENT, ABSENT; BadOperand), // 0fc7
    read!(Memory Reg::Any, Rm::Any; Always; Name(195); G_E X false X ABSENT, ABSENT; Eight Eight), // 0f12 MOVLPS
    read!(Register Reg::Any, Rm::Any; Always; Name(568); G_E X false X ABSENT, ABSENT; V V), // 0f12 MOVHLPS
    read!(Memory Reg::Any, Rm::Any; Always; Name(196); G_E X false X ABSENT, ABSENT; Eight Eight), // 0f16 MOVHPS
    read!(Register Reg::Any, Rm::Any; Always; Name(569); G_E X false X ABSENT, ABSENT; V V), // 0f16 MOVLHPS
    read!(Register Reg::Is(0), Rm::Any; Always; Name(270); E_I_X B false X U8, X8; Zero Zero), // 660f78 EXTRQ
    refused!(Either Reg::Any, Rm::Any; Always; NO B false B ABSENT, ABSENT; BadOperand), // 660f78
    read!(Register Reg::Is(7), Rm::Is(2); Always; Name(451); NO B false B ABSENT, ABSENT; Zero Zero), // f30f1e ENDBR64
    read!(Register Reg::Is(7), Rm::Is(3); Always; Name(450); NO B false B ABSENT, ABSENT; Zero Zero), // f30f1e ENDBR32
    read!(Either Reg::Any, Rm::Any; Always; Name(76); E_G V false V ABSENT, ABSENT; V V), // f30f1e NOP
    read!(Register Reg::Any, Rm::Any; Always; Name(318); G_E_I_X X false X U8, X8; Zero Zero), // f20f78 INSERTQ
    refused!(Either Reg::Any, Rm::Any; Always; NO B false B ABSENT, ABSENT; BadOperand), // f20f78
    read!(Memory Reg::Any, Rm::Any; Always; ByReg([424, 420, 0, 0, 0, 0, 0, 0]); E B false Q ABSENT, ABSENT; FortyEight FortyEight), // f30f38d8 AESENCWIDE128KL AESDECWIDE128KL - - - - - -
    read!(Memory Reg::Any, Rm::Any; Always; ByReg([0, 0, 425, 421, 0, 0, 0, 0]); E B false Q ABSENT, ABSENT; SixtyFour SixtyFour), // f30f38d8 - - AESENCWIDE256KL AESDECWIDE256KL - - - -
    refused!(Memory Reg::Any, Rm::Any; Always; E B false Q ABSENT, ABSENT; BadOpcode), // f30f38d8
    refused!(Either Reg::Any, Rm::Any; Always; NO B false B ABSENT, ABSENT; BadOperand), // f30f38d8
    read!(Memory Reg::Any, Rm::Any; Always; Name(422); G_E X false X ABSENT, ABSENT; FortyEight FortyEight), // f30f38dc AESENC128KL
    read!(Register Reg::Any, Rm::Any; Always; Name(563); G_E X false X ABSENT, ABSENT; V V), // f30f38dc LOADIWKEY
    read!(Memory Reg::Any, Rm::Any; Always; Name(418); G_E X false Q ABSENT, ABSENT; FortyEight FortyEight), // f30f38dd AESDEC128KL
    refused!(Either Reg::Any, Rm::Any; Always; NO B false B ABSENT, ABSENT; BadOperand), // f30f38dd
    read!(Memory Reg::Any, Rm::Any; Always; Name(423); G_E X false Q ABSENT, ABSENT; SixtyFour SixtyFour), // f30f38de AESENC256KL
    refused!(Either Reg::Any, Rm::Any; Always; NO B false B ABSENT, ABSENT; BadOperand), // f30f38de
    read!(Memory Reg::Any, Rm::Any; Always; Name(419); G_E X false Q ABSENT, ABSENT; SixtyFour SixtyFour), // f30f38df AESDEC256KL
    refused!(Either Reg::Any, Rm::Any; Always; NO B false B ABSENT, ABSENT; BadOperand), // f30f38df
    read!(Register Reg::Any, Rm::Any; Always; Name(448); G_E D false D ABSENT, ABSENT; V V), // f30f38fa ENCODEKEY128
    refused!(Either Reg::Any, Rm::Any; Always; E B false Q ABSENT, ABSENT; BadOpcode), // f30f38fa
    read!(Register Reg::Any, Rm::Any; Always; Name(449); G_E D false D ABSENT, ABSENT; V V), // f30f38fb ENCODEKEY256
    refused!(Either Reg::Any, Rm::Any; Always; E B false Q ABSENT, ABSENT; BadOpcode), // f30f38fb
    read!(Register Reg::Any, Rm::Any; Always; Name(545); I B false B U8, ABSENT; Zero Zero), // f30f3af0 HRESET
    refused!(Either Reg::Any, Rm::Any; Always; NO B false B ABSENT, ABSENT; BadOpcode), // f30f3af0
];

/// The first row of each ordinal, and the one after its last. A form that carries a number has eight ordinals.
pub(crate) const SPANS: &[(u16, u16); 199] = &[
    (0, 1), // Zv_R
    (0, 1), // Zv_R
    (0, 1), // Zv_R
    (0, 1), // Zv_R
    (0, 1), // Zv_R
    (0, 1), // Zv_R
    (0, 1), // Zv_R
    (0, 1), // Zv_R
    (0, 1), // Zv_AX_R
    (0, 1), // Zv_AX_R
    (0, 1), // Zv_AX_R
    (0, 1), // Zv_AX_R
    (0, 1), // Zv_AX_R
    (0, 1), // Zv_AX_R
    (0, 1), // Zv_AX_R
    (0, 1), // Zv_AX_R
    (0, 1), // Zb_Ib_R
    (0, 1), // Zb_Ib_R
    (0, 1), // Zb_Ib_R
    (0, 1), // Zb_Ib_R
    (0, 1), // Zb_Ib_R
    (0, 1), // Zb_Ib_R
    (0, 1), // Zb_Ib_R
    (0, 1), // Zb_Ib_R
    (0, 1), // Zv_Ivq_R
    (0, 1), // Zv_Ivq_R
    (0, 1), // Zv_Ivq_R
    (0, 1), // Zv_Ivq_R
    (0, 1), // Zv_Ivq_R
    (0, 1), // Zv_Ivq_R
    (0, 1), // Zv_Ivq_R
    (0, 1), // Zv_Ivq_R
    (0, 1), // Zv_B
    (0, 1), // Zv_B
    (0, 1), // Zv_B
    (0, 1), // Zv_B
    (0, 1), // Zv_B
    (0, 1), // Zv_B
    (0, 1), // Zv_B
    (0, 1), // Zv_B
    (0, 1), // Eb_Gb
    (0, 1), // Ev_Gv
    (0, 1), // Gb_Eb
    (0, 1), // Gv_Ev
    (0, 1), // AL_Ibs
    (0, 1), // AX_Ivd
    (0, 1), // Gdq_Ed
    (0, 1), // PushIvs
    (0, 1), // Gv_Ev_Iv
    (0, 1), // PushIbs
    (0, 1), // Gv_Ev_Ib
    (0, 1), // Yb_DX
    (0, 1), // Yv_DX
    (0, 1), // DX_Xb
    (0, 1), // DX_Xv
    (0, 1), // Ibs
    (1, 2), // ModRM_0x80
    (2, 3), // ModRM_0x81
    (3, 4), // ModRM_0x83
    (0, 1), // Ew_Sw
    (0, 1), // Gv_M
    (0, 1), // Sw_Ew
    (4, 7), // ModRM_0x8f
    (0, 1), // CVT_AA
    (0, 1), // CVT_DA
    (0, 1), // Nothing
    (0, 1), // AH
    (0, 1), // AL_Ob
    (0, 1), // AX_Ov
    (0, 1), // Ob_AL
    (0, 1), // Ov_AX
    (0, 1), // Yb_Xb
    (0, 1), // Yv_Xv
    (0, 1), // Yb_AL
    (0, 1), // Yv_AX
    (0, 1), // AL_Xb
    (0, 1), // AX_Xv
    (7, 8), // ModRM_0xc0
    (8, 9), // ModRM_0xc1
    (0, 1), // Iw
    (9, 12), // ModRM_0xc6
    (12, 15), // ModRM_0xc7
    (0, 1), // Iw_Ib
    (0, 1), // I_3
    (0, 1), // Ib
    (0, 1), // Fw
    (15, 16), // ModRM_0xd0
    (16, 17), // ModRM_0xd1
    (17, 18), // ModRM_0xd2
    (18, 19), // ModRM_0xd3
    (19, 21), // x87_d8
    (21, 34), // x87_d9
    (34, 38), // x87_da
    (38, 45), // x87_db
    (45, 48), // x87_dc
    (48, 56), // x87_dd
    (56, 61), // x87_de
    (61, 72), // x87_df
    (0, 1), // CXZ
    (0, 1), // AL_Ib
    (0, 1), // AX_Ib
    (0, 1), // Ib_AL
    (0, 1), // Ib_AX
    (0, 1), // Jvds
    (0, 1), // AL_DX
    (0, 1), // AX_DX
    (0, 1), // DX_AL
    (0, 1), // DX_AX
    (0, 1), // I_1
    (72, 74), // ModRM_0xf6
    (74, 76), // ModRM_0xf7
    (76, 78), // ModRM_0xfe
    (78, 87), // ModRM_0xff
    (87, 89), // ModRM_0x0f00
    (89, 125), // ModRM_0x0f01
    (0, 1), // Gv_Ew_LAR
    (0, 1), // Gv_Ew_LSL
    (125, 128), // ModRM_0x0f0d
    (128, 129), // ModRM_0x0f0f
    (129, 131), // ModRM_0x0f18
    (0, 1), // Ev
    (131, 135), // Rq_Cq_0
    (135, 137), // Rq_Dq_0
    (137, 141), // Cq_Rq_0
    (141, 143), // Dq_Rq_0
    (143, 147), // ModRM_0x0f71
    (147, 151), // ModRM_0x0f72
    (151, 157), // ModRM_0x0f73
    (0, 1), // Eb_R0
    (0, 1), // FS
    (0, 1), // Ev_Gv_Ib
    (0, 1), // Ev_Gv_CL
    (0, 1), // GS
    (157, 174), // ModRM_0x0fae
    (0, 1), // INV_Gv_M
    (0, 1), // Gv_Eb
    (0, 1), // Gv_Ew
    (174, 176), // ModRM_0x0fba
    (176, 193), // ModRM_0x0fc7
    (0, 1), // Gd_Ed
    (0, 1), // G_E_mm
    (0, 1), // G_E_xmm
    (0, 1), // E_G_xmm
    (193, 195), // ModRM_0x0f12
    (195, 197), // ModRM_0x0f16
    (0, 1), // M_G_xmm
    (0, 1), // G_xmm_E_mm
    (0, 1), // G_mm_E_xmm
    (0, 1), // PMOVX_G_E_xmm
    (0, 1), // Gd_U_xmm
    (0, 1), // G_mm_Edq
    (0, 1), // G_mm_E
    (0, 1), // G_E_mm_Ib
    (0, 1), // E_G_q
    (0, 1), // G_E_q
    (0, 1), // Edq_G_mm
    (0, 1), // E_G_mm
    (0, 1), // G_E_xmm_Ib
    (0, 1), // Mdq_Gdq
    (0, 1), // G_mm_Ew_Ib
    (0, 1), // Rv_Gmm_Ib
    (0, 1), // G_U_mm
    (0, 1), // G_Mq_mm
    (0, 1), // G_mm_U_mm
    (0, 1), // G_xmm_Edq
    (197, 199), // ModRM_0x660f78
    (0, 1), // G_U_xmm
    (0, 1), // Edq_G_xmm
    (0, 1), // G_xmm_Ew_Ib
    (0, 1), // G_U_xmm_Ub
    (0, 1), // PMOVX_E_G_xmm
    (0, 1), // MASKMOVDQU
    (0, 1), // G_Ed_xmm
    (0, 1), // Ed_G_xmm
    (199, 202), // ModRM_0xf30f1e
    (0, 1), // Gv_E_xmm
    (0, 1), // MOVQ_f30f
    (0, 1), // G_xmm_U_mm
    (0, 1), // Gdq_Eq_xmm
    (202, 204), // ModRM_0xf20f78
    (0, 1), // G_mm_U_xmm
    (0, 1), // G_M_xmm
    (0, 1), // G_Mq_xmm
    (0, 1), // M_Gv
    (0, 1), // MOVDIR64B
    (204, 208), // ModRM_0xf30f38d8
    (208, 210), // ModRM_0xf30f38dc
    (210, 212), // ModRM_0xf30f38dd
    (212, 214), // ModRM_0xf30f38de
    (214, 216), // ModRM_0xf30f38df
    (216, 218), // ModRM_0xf30f38fa
    (218, 220), // ModRM_0xf30f38fb
    (0, 1), // Gdq_Ev
    (0, 1), // G_E_xmm_Ub
    (0, 1), // Ev_G_xmm_Ib
    (0, 1), // Pextr_dq
    (0, 1), // G_Ev_xmm_Ib
    (0, 1), // Pinsr_dq
    (220, 222), // ModRM_0xf30f3af0
];

/// Which cells each form has, by the number that words have for it. The first ones are of forms that have none.
pub(crate) const CELLS_AT: &[u8; 200] = &[
    0, // the number 0, which no form has
    0, // Zv_R
    0, // Zv_R
    0, // Zv_R
    0, // Zv_R
    0, // Zv_R
    0, // Zv_R
    0, // Zv_R
    0, // Zv_R
    0, // Zv_AX_R
    0, // Zv_AX_R
    0, // Zv_AX_R
    0, // Zv_AX_R
    0, // Zv_AX_R
    0, // Zv_AX_R
    0, // Zv_AX_R
    0, // Zv_AX_R
    0, // Zb_Ib_R
    0, // Zb_Ib_R
    0, // Zb_Ib_R
    0, // Zb_Ib_R
    0, // Zb_Ib_R
    0, // Zb_Ib_R
    0, // Zb_Ib_R
    0, // Zb_Ib_R
    0, // Zv_Ivq_R
    0, // Zv_Ivq_R
    0, // Zv_Ivq_R
    0, // Zv_Ivq_R
    0, // Zv_Ivq_R
    0, // Zv_Ivq_R
    0, // Zv_Ivq_R
    0, // Zv_Ivq_R
    0, // Zv_B
    0, // Zv_B
    0, // Zv_B
    0, // Zv_B
    0, // Zv_B
    0, // Zv_B
    0, // Zv_B
    0, // Zv_B
    0, // Eb_Gb
    0, // Ev_Gv
    0, // Gb_Eb
    0, // Gv_Ev
    0, // AL_Ibs
    0, // AX_Ivd
    0, // Gdq_Ed
    0, // PushIvs
    0, // Gv_Ev_Iv
    0, // PushIbs
    0, // Gv_Ev_Ib
    0, // Yb_DX
    0, // Yv_DX
    0, // DX_Xb
    0, // DX_Xv
    0, // Ibs
    1, // ModRM_0x80
    2, // ModRM_0x81
    3, // ModRM_0x83
    0, // Ew_Sw
    0, // Gv_M
    0, // Sw_Ew
    4, // ModRM_0x8f
    0, // CVT_AA
    0, // CVT_DA
    0, // Nothing
    0, // AH
    0, // AL_Ob
    0, // AX_Ov
    0, // Ob_AL
    0, // Ov_AX
    0, // Yb_Xb
    0, // Yv_Xv
    0, // Yb_AL
    0, // Yv_AX
    0, // AL_Xb
    0, // AX_Xv
    5, // ModRM_0xc0
    6, // ModRM_0xc1
    0, // Iw
    7, // ModRM_0xc6
    8, // ModRM_0xc7
    0, // Iw_Ib
    0, // I_3
    0, // Ib
    0, // Fw
    9, // ModRM_0xd0
    10, // ModRM_0xd1
    11, // ModRM_0xd2
    12, // ModRM_0xd3
    13, // x87_d8
    14, // x87_d9
    15, // x87_da
    16, // x87_db
    17, // x87_dc
    18, // x87_dd
    19, // x87_de
    20, // x87_df
    0, // CXZ
    0, // AL_Ib
    0, // AX_Ib
    0, // Ib_AL
    0, // Ib_AX
    0, // Jvds
    0, // AL_DX
    0, // AX_DX
    0, // DX_AL
    0, // DX_AX
    0, // I_1
    21, // ModRM_0xf6
    22, // ModRM_0xf7
    23, // ModRM_0xfe
    24, // ModRM_0xff
    25, // ModRM_0x0f00
    26, // ModRM_0x0f01
    0, // Gv_Ew_LAR
    0, // Gv_Ew_LSL
    27, // ModRM_0x0f0d
    28, // ModRM_0x0f0f
    29, // ModRM_0x0f18
    0, // Ev
    0, // Rq_Cq_0
    0, // Rq_Dq_0
    0, // Cq_Rq_0
    0, // Dq_Rq_0
    30, // ModRM_0x0f71
    31, // ModRM_0x0f72
    32, // ModRM_0x0f73
    0, // Eb_R0
    0, // FS
    0, // Ev_Gv_Ib
    0, // Ev_Gv_CL
    0, // GS
    33, // ModRM_0x0fae
    0, // INV_Gv_M
    0, // Gv_Eb
    0, // Gv_Ew
    34, // ModRM_0x0fba
    35, // ModRM_0x0fc7
    0, // Gd_Ed
    0, // G_E_mm
    0, // G_E_xmm
    0, // E_G_xmm
    36, // ModRM_0x0f12
    37, // ModRM_0x0f16
    0, // M_G_xmm
    0, // G_xmm_E_mm
    0, // G_mm_E_xmm
    0, // PMOVX_G_E_xmm
    0, // Gd_U_xmm
    0, // G_mm_Edq
    0, // G_mm_E
    0, // G_E_mm_Ib
    0, // E_G_q
    0, // G_E_q
    0, // Edq_G_mm
    0, // E_G_mm
    0, // G_E_xmm_Ib
    0, // Mdq_Gdq
    0, // G_mm_Ew_Ib
    0, // Rv_Gmm_Ib
    0, // G_U_mm
    0, // G_Mq_mm
    0, // G_mm_U_mm
    0, // G_xmm_Edq
    38, // ModRM_0x660f78
    0, // G_U_xmm
    0, // Edq_G_xmm
    0, // G_xmm_Ew_Ib
    0, // G_U_xmm_Ub
    0, // PMOVX_E_G_xmm
    0, // MASKMOVDQU
    0, // G_Ed_xmm
    0, // Ed_G_xmm
    39, // ModRM_0xf30f1e
    0, // Gv_E_xmm
    0, // MOVQ_f30f
    0, // G_xmm_U_mm
    0, // Gdq_Eq_xmm
    40, // ModRM_0xf20f78
    0, // G_mm_U_xmm
    0, // G_M_xmm
    0, // G_Mq_xmm
    0, // M_Gv
    0, // MOVDIR64B
    41, // ModRM_0xf30f38d8
    42, // ModRM_0xf30f38dc
    43, // ModRM_0xf30f38dd
    44, // ModRM_0xf30f38de
    45, // ModRM_0xf30f38df
    46, // ModRM_0xf30f38fa
    47, // ModRM_0xf30f38fb
    0, // Gdq_Ev
    0, // G_E_xmm_Ub
    0, // Ev_G_xmm_Ib
    0, // Pextr_dq
    0, // G_Ev_xmm_Ib
    0, // Pinsr_dq
    0, // ModRM_0xf30f3af0
];

/// The cells of each group: those of the memory forms by reg, then those of the register forms.
pub(crate) const CELLS: &[[Cell; 16]; 48] = &[
    [
        cell!(0 0),
        cell!(0 0),
        cell!(0 0),
        cell!(0 0),
        cell!(0 0),
        cell!(0 0),
        cell!(0 0),
        cell!(0 0),
        cell!(0 0),
        cell!(0 0),
        cell!(0 0),
        cell!(0 0),
        cell!(0 0),
        cell!(0 0),
        cell!(0 0),
        cell!(0 0),
    ],
    [
        cell!(1 1), // ADD
        cell!(1 2), // OR
        cell!(1 3), // ADC
        cell!(1 4), // SBB
        cell!(1 5), // AND
        cell!(1 6), // SUB
        cell!(1 7), // XOR
        cell!(1 8), // CMP
        cell!(1 1), // ADD
        cell!(1 2), // OR
        cell!(1 3), // ADC
        cell!(1 4), // SBB
        cell!(1 5), // AND
        cell!(1 6), // SUB
        cell!(1 7), // XOR
        cell!(1 8), // CMP
    ], // 80
    [
        cell!(2 1), // ADD
        cell!(2 2), // OR
        cell!(2 3), // ADC
        cell!(2 4), // SBB
        cell!(2 5), // AND
        cell!(2 6), // SUB
        cell!(2 7), // XOR
        cell!(2 8), // CMP
        cell!(2 1), // ADD
        cell!(2 2), // OR
        cell!(2 3), // ADC
        cell!(2 4), // SBB
        cell!(2 5), // AND
        cell!(2 6), // SUB
        cell!(2 7), // XOR
        cell!(2 8), // CMP
    ], // 81
    [
        cell!(3 1), // ADD
        cell!(3 2), // OR
        cell!(3 3), // ADC
        cell!(3 4), // SBB
        cell!(3 5), // AND
        cell!(3 6), // SUB
        cell!(3 7), // XOR
        cell!(3 8), // CMP
        cell!(3 1), // ADD
        cell!(3 2), // OR
        cell!(3 3), // ADC
        cell!(3 4), // SBB
        cell!(3 5), // AND
        cell!(3 6), // SUB
        cell!(3 7), // XOR
        cell!(3 8), // CMP
    ], // 83
    [
        cell!(0 0), // -
        cell!(0 0), // -
        cell!(0 0), // -
        cell!(0 0), // -
        cell!(0 0), // -
        cell!(0 0), // -
        cell!(0 0), // -
        cell!(0 0), // -
        cell!(0 0), // -
        cell!(0 0), // -
        cell!(0 0), // -
        cell!(0 0), // -
        cell!(0 0), // -
        cell!(0 0), // -
        cell!(0 0), // -
        cell!(0 0), // -
    ], // 8f
    [
        cell!(7 624), // ROL
        cell!(7 625), // ROR
        cell!(7 612), // RCL
        cell!(7 613), // RCR
        cell!(7 637), // SHL
        cell!(7 638), // SHR
        cell!(7 627), // SAL
        cell!(7 628), // SAR
        cell!(7 624), // ROL
        cell!(7 625), // ROR
        cell!(7 612), // RCL
        cell!(7 613), // RCR
        cell!(7 637), // SHL
        cell!(7 638), // SHR
        cell!(7 627), // SAL
        cell!(7 628), // SAR
    ], // c0
    [
        cell!(8 624), // ROL
        cell!(8 625), // ROR
        cell!(8 612), // RCL
        cell!(8 613), // RCR
        cell!(8 637), // SHL
        cell!(8 638), // SHR
        cell!(8 627), // SAL
        cell!(8 628), // SAR
        cell!(8 624), // ROL
        cell!(8 625), // ROR
        cell!(8 612), // RCL
        cell!(8 613), // RCR
        cell!(8 637), // SHL
        cell!(8 638), // SHR
        cell!(8 627), // SAL
        cell!(8 628), // SAR
    ], // c1
    [
        cell!(9 33), // MOV
        cell!(0 0), // -
        cell!(0 0), // -
        cell!(0 0), // -
        cell!(0 0), // -
        cell!(0 0), // -
        cell!(0 0), // -
        cell!(0 0), // -
        cell!(9 33), // MOV
        cell!(0 0), // -
        cell!(0 0), // -
        cell!(0 0), // -
        cell!(0 0), // -
        cell!(0 0), // -
        cell!(0 0), // -
        cell!(0 0), // -
    ], // c6
    [
        cell!(12 33), // MOV
        cell!(0 0), // -
        cell!(0 0), // -
        cell!(0 0), // -
        cell!(0 0), // -
        cell!(0 0), // -
        cell!(0 0), // -
        cell!(0 0), // -
        cell!(12 33), // MOV
        cell!(0 0), // -
        cell!(0 0), // -
        cell!(0 0), // -
        cell!(0 0), // -
        cell!(0 0), // -
        cell!(0 0), // -
        cell!(0 0), // -
    ], // c7
    [
        cell!(15 624), // ROL
        cell!(15 625), // ROR
        cell!(15 612), // RCL
        cell!(15 613), // RCR
        cell!(15 637), // SHL
        cell!(15 638), // SHR
        cell!(15 627), // SAL
        cell!(15 628), // SAR
        cell!(15 624), // ROL
        cell!(15 625), // ROR
        cell!(15 612), // RCL
        cell!(15 613), // RCR
        cell!(15 637), // SHL
        cell!(15 638), // SHR
        cell!(15 627), // SAL
        cell!(15 628), // SAR
    ], // d0
    [
        cell!(16 624), // ROL
        cell!(16 625), // ROR
        cell!(16 612), // RCL
        cell!(16 613), // RCR
        cell!(16 637), // SHL
        cell!(16 638), // SHR
        cell!(16 627), // SAL
        cell!(16 628), // SAR
        cell!(16 624), // ROL
        cell!(16 625), // ROR
        cell!(16 612), // RCL
        cell!(16 613), // RCR
        cell!(16 637), // SHL
        cell!(16 638), // SHR
        cell!(16 627), // SAL
        cell!(16 628), // SAR
    ], // d1
    [
        cell!(17 624), // ROL
        cell!(17 625), // ROR
        cell!(17 612), // RCL
        cell!(17 613), // RCR
        cell!(17 637), // SHL
        cell!(17 638), // SHR
        cell!(17 627), // SAL
        cell!(17 628), // SAR
        cell!(17 624), // ROL
        cell!(17 625), // ROR
        cell!(17 612), // RCL
        cell!(17 613), // RCR
        cell!(17 637), // SHL
        cell!(17 638), // SHR
        cell!(17 627), // SAL
        cell!(17 628), // SAR
    ], // d2
    [
        cell!(18 624), // ROL
        cell!(18 625), // ROR
        cell!(18 612), // RCL
        cell!(18 613), // RCR
        cell!(18 637), // SHL
        cell!(18 638), // SHR
        cell!(18 627), // SAL
        cell!(18 628), // SAR
        cell!(18 624), // ROL
        cell!(18 625), // ROR
        cell!(18 612), // RCL
        cell!(18 613), // RCR
        cell!(18 637), // SHL
        cell!(18 638), // SHR
        cell!(18 627), // SAL
        cell!(18 628), // SAR
    ], // d3
    [
        cell!(19 454), // FADD
        cell!(19 505), // FMUL
        cell!(19 467), // FCOM
        cell!(19 470), // FCOMP
        cell!(19 528), // FSUB
        cell!(19 530), // FSUBR
        cell!(19 475), // FDIV
        cell!(19 477), // FDIVR
        cell!(20 454), // FADD
        cell!(20 505), // FMUL
        cell!(20 467), // FCOM
        cell!(20 470), // FCOMP
        cell!(20 528), // FSUB
        cell!(20 530), // FSUBR
        cell!(20 475), // FDIV
        cell!(20 477), // FDIVR
    ], // d8
    [
        cell!(21 495), // FLD
        cell!(0 0), // -
        cell!(22 525), // FST
        cell!(23 526), // FSTP
        cell!(24 498), // FLDENV
        cell!(25 497), // FLDCW
        cell!(24 512), // FNSTENV
        cell!(25 511), // FNSTCW
        cell!(26 495), // FLD
        cell!(26 539), // FXCH
        cell!(0 0), // -
        cell!(28 527), // FSTPNCE
        cell!(29 0), // by rm
        cell!(30 0), // by rm
        cell!(31 0), // by rm
        cell!(32 0), // by rm
    ], // d9
    [
        cell!(34 482), // FIADD
        cell!(34 488), // FIMUL
        cell!(34 483), // FICOM
        cell!(34 484), // FICOMP
        cell!(34 493), // FISUB
        cell!(34 494), // FISUBR
        cell!(34 485), // FIDIV
        cell!(34 486), // FIDIVR
        cell!(35 459), // FCMOVB
        cell!(35 461), // FCMOVE
        cell!(35 460), // FCMOVBE
        cell!(35 466), // FCMOVU
        cell!(0 0), // -
        cell!(0 0), // -
        cell!(0 0), // -
        cell!(0 0), // -
    ], // da
    [
        cell!(38 487), // FILD
        cell!(39 492), // FISTTP
        cell!(39 490), // FIST
        cell!(39 491), // FISTP
        cell!(0 0), // -
        cell!(40 495), // FLD
        cell!(0 0), // -
        cell!(41 526), // FSTP
        cell!(42 462), // FCMOVNB
        cell!(42 464), // FCMOVNE
        cell!(42 463), // FCMOVNBE
        cell!(42 465), // FCMOVNU
        cell!(43 0), // by rm
        cell!(42 534), // FUCOMI
        cell!(42 468), // FCOMI
        cell!(0 0), // -
    ], // db
    [
        cell!(45 454), // FADD
        cell!(45 505), // FMUL
        cell!(45 467), // FCOM
        cell!(45 470), // FCOMP
        cell!(45 528), // FSUB
        cell!(45 530), // FSUBR
        cell!(45 475), // FDIV
        cell!(45 477), // FDIVR
        cell!(47 454), // FADD
        cell!(47 505), // FMUL
        cell!(46 467), // FCOM
        cell!(46 470), // FCOMP
        cell!(47 530), // FSUBR
        cell!(47 528), // FSUB
        cell!(47 477), // FDIVR
        cell!(47 475), // FDIV
    ], // dc
    [
        cell!(48 495), // FLD
        cell!(49 492), // FISTTP
        cell!(49 525), // FST
        cell!(49 526), // FSTP
        cell!(50 519), // FRSTOR
        cell!(0 0), // -
        cell!(50 510), // FNSAVE
        cell!(51 513), // FNSTSW
        cell!(52 480), // FFREE
        cell!(53 539), // FXCH
        cell!(54 525), // FST
        cell!(54 526), // FSTP
        cell!(53 533), // FUCOM
        cell!(53 536), // FUCOMP
        cell!(0 0), // -
        cell!(0 0), // -
    ], // dd
    [
        cell!(56 482), // FIADD
        cell!(56 488), // FIMUL
        cell!(56 483), // FICOM
        cell!(56 484), // FICOMP
        cell!(56 493), // FISUB
        cell!(56 494), // FISUBR
        cell!(56 485), // FIDIV
        cell!(56 486), // FIDIVR
        cell!(59 455), // FADDP
        cell!(59 506), // FMULP
        cell!(57 470), // FCOMP
        cell!(0 0), // -
        cell!(59 531), // FSUBRP
        cell!(59 529), // FSUBP
        cell!(59 478), // FDIVRP
        cell!(59 476), // FDIVP
    ], // de
    [
        cell!(61 487), // FILD
        cell!(62 492), // FISTTP
        cell!(62 490), // FIST
        cell!(62 491), // FISTP
        cell!(63 456), // FBLD
        cell!(64 487), // FILD
        cell!(65 457), // FBSTP
        cell!(66 491), // FISTP
        cell!(67 481), // FFREEP
        cell!(68 539), // FXCH
        cell!(69 526), // FSTP
        cell!(69 526), // FSTP
        cell!(0 0), // -
        cell!(68 535), // FUCOMIP
        cell!(68 469), // FCOMIP
        cell!(0 0), // -
    ], // df
    [
        cell!(72 31), // TEST
        cell!(72 31), // TEST
        cell!(73 574), // NOT
        cell!(73 573), // NEG
        cell!(73 570), // MUL
        cell!(73 12), // IMUL
        cell!(73 444), // DIV
        cell!(73 546), // IDIV
        cell!(72 31), // TEST
        cell!(72 31), // TEST
        cell!(73 574), // NOT
        cell!(73 573), // NEG
        cell!(73 570), // MUL
        cell!(73 12), // IMUL
        cell!(73 444), // DIV
        cell!(73 546), // IDIV
    ], // f6
    [
        cell!(74 31), // TEST
        cell!(74 31), // TEST
        cell!(75 574), // NOT
        cell!(75 573), // NEG
        cell!(75 570), // MUL
        cell!(75 12), // IMUL
        cell!(75 444), // DIV
        cell!(75 546), // IDIV
        cell!(74 31), // TEST
        cell!(74 31), // TEST
        cell!(75 574), // NOT
        cell!(75 573), // NEG
        cell!(75 570), // MUL
        cell!(75 12), // IMUL
        cell!(75 444), // DIV
        cell!(75 546), // IDIV
    ], // f7
    [
        cell!(76 547), // INC
        cell!(76 443), // DEC
        cell!(0 0), // -
        cell!(0 0), // -
        cell!(0 0), // -
        cell!(0 0), // -
        cell!(0 0), // -
        cell!(0 0), // -
        cell!(76 547), // INC
        cell!(76 443), // DEC
        cell!(0 0), // -
        cell!(0 0), // -
        cell!(0 0), // -
        cell!(0 0), // -
        cell!(0 0), // -
        cell!(0 0), // -
    ], // fe
    [
        cell!(78 547), // INC
        cell!(78 443), // DEC
        cell!(79 58), // CALL
        cell!(80 426), // CALLF
        cell!(81 54), // JMP
        cell!(82 556), // JMPF
        cell!(83 9), // PUSH
        cell!(0 0), // -
        cell!(78 547), // INC
        cell!(78 443), // DEC
        cell!(79 58), // CALL
        cell!(0 0), // -
        cell!(81 54), // JMP
        cell!(0 0), // -
        cell!(83 9), // PUSH
        cell!(0 0), // -
    ], // ff
    [
        cell!(87 641), // SLDT
        cell!(87 646), // STR
        cell!(87 561), // LLDT
        cell!(87 564), // LTR
        cell!(87 656), // VERR
        cell!(87 657), // VERW
        cell!(0 0), // -
        cell!(0 0), // -
        cell!(87 641), // SLDT
        cell!(87 646), // STR
        cell!(87 561), // LLDT
        cell!(87 564), // LTR
        cell!(87 656), // VERR
        cell!(87 657), // VERW
        cell!(0 0), // -
        cell!(0 0), // -
    ], // 0f00
    [
        cell!(89 636), // SGDT
        cell!(90 639), // SIDT
        cell!(91 559), // LGDT
        cell!(92 560), // LIDT
        cell!(93 642), // SMSW
        cell!(0 0), // -
        cell!(95 562), // LMSW
        cell!(96 549), // INVLPG
        cell!(0 0), // -
        cell!(0 0), // -
        cell!(0 0), // -
        cell!(0 0), // -
        cell!(112 642), // SMSW
        cell!(0 0), // -
        cell!(116 562), // LMSW
        cell!(117 0), // by rm
    ], // 0f01
    [
        cell!(126 76), // NOP
        cell!(125 605), // PREFETCHW
        cell!(126 76), // NOP
        cell!(126 76), // NOP
        cell!(126 76), // NOP
        cell!(126 76), // NOP
        cell!(126 76), // NOP
        cell!(126 76), // NOP
        cell!(0 0), // -
        cell!(0 0), // -
        cell!(0 0), // -
        cell!(0 0), // -
        cell!(0 0), // -
        cell!(0 0), // -
        cell!(0 0), // -
        cell!(0 0), // -
    ], // 0f0d
    [
        cell!(0 0), // -
        cell!(0 0), // -
        cell!(0 0), // -
        cell!(0 0), // -
        cell!(0 0), // -
        cell!(0 0), // -
        cell!(0 0), // -
        cell!(0 0), // -
        cell!(0 0), // -
        cell!(0 0), // -
        cell!(0 0), // -
        cell!(0 0), // -
        cell!(0 0), // -
        cell!(0 0), // -
        cell!(0 0), // -
        cell!(0 0), // -
    ], // 0f0f
    [
        cell!(129 604), // PREFETCHNTA
        cell!(129 601), // PREFETCH0
        cell!(129 602), // PREFETCH1
        cell!(129 603), // PREFETCH2
        cell!(130 76), // NOP
        cell!(130 76), // NOP
        cell!(130 76), // NOP
        cell!(130 76), // NOP
        cell!(130 76), // NOP
        cell!(130 76), // NOP
        cell!(130 76), // NOP
        cell!(130 76), // NOP
        cell!(130 76), // NOP
        cell!(130 76), // NOP
        cell!(130 76), // NOP
        cell!(130 76), // NOP
    ], // 0f18
    [
        cell!(0 0), // -
        cell!(0 0), // -
        cell!(0 0), // -
        cell!(0 0), // -
        cell!(0 0), // -
        cell!(0 0), // -
        cell!(0 0), // -
        cell!(0 0), // -
        cell!(0 0), // -
        cell!(0 0), // -
        cell!(0 0), // -
        cell!(0 0), // -
        cell!(0 0), // -
        cell!(0 0), // -
        cell!(0 0), // -
        cell!(0 0), // -
    ], // 0f71
    [
        cell!(0 0), // -
        cell!(0 0), // -
        cell!(0 0), // -
        cell!(0 0), // -
        cell!(0 0), // -
        cell!(0 0), // -
        cell!(0 0), // -
        cell!(0 0), // -
        cell!(0 0), // -
        cell!(0 0), // -
        cell!(0 0), // -
        cell!(0 0), // -
        cell!(0 0), // -
        cell!(0 0), // -
        cell!(0 0), // -
        cell!(0 0), // -
    ], // 0f72
    [
        cell!(0 0), // -
        cell!(0 0), // -
        cell!(0 0), // -
        cell!(0 0), // -
        cell!(0 0), // -
        cell!(0 0), // -
        cell!(0 0), // -
        cell!(0 0), // -
        cell!(0 0), // -
        cell!(0 0), // -
        cell!(0 0), // -
        cell!(0 0), // -
        cell!(0 0), // -
        cell!(0 0), // -
        cell!(0 0), // -
        cell!(0 0), // -
    ], // 0f73
    [
        cell!(0 0), // -
        cell!(0 0), // -
        cell!(0 0), // -
        cell!(0 0), // -
        cell!(0 0), // -
        cell!(0 0), // -
        cell!(0 0), // -
        cell!(0 0), // -
        cell!(0 0), // -
        cell!(0 0), // -
        cell!(0 0), // -
        cell!(0 0), // -
        cell!(0 0), // -
        cell!(0 0), // -
        cell!(0 0), // -
        cell!(0 0), // -
    ], // 0fae
    [
        cell!(0 0), // -
        cell!(0 0), // -
        cell!(0 0), // -
        cell!(0 0), // -
        cell!(174 118), // BT
        cell!(174 119), // BTS
        cell!(174 120), // BTR
        cell!(174 121), // BTC
        cell!(0 0), // -
        cell!(0 0), // -
        cell!(0 0), // -
        cell!(0 0), // -
        cell!(174 118), // BT
        cell!(174 119), // BTS
        cell!(174 120), // BTR
        cell!(174 121), // BTC
    ], // 0fba
    [
        cell!(0 0), // -
        cell!(0 0), // -
        cell!(0 0), // -
        cell!(0 0), // -
        cell!(0 0), // -
        cell!(0 0), // -
        cell!(0 0), // -
        cell!(0 0), // -
        cell!(0 0), // -
        cell!(0 0), // -
        cell!(0 0), // -
        cell!(0 0), // -
        cell!(0 0), // -
        cell!(0 0), // -
        cell!(0 0), // -
        cell!(0 0), // -
    ], // 0fc7
    [
        cell!(193 195), // MOVLPS
        cell!(193 195), // MOVLPS
        cell!(193 195), // MOVLPS
        cell!(193 195), // MOVLPS
        cell!(193 195), // MOVLPS
        cell!(193 195), // MOVLPS
        cell!(193 195), // MOVLPS
        cell!(193 195), // MOVLPS
        cell!(194 568), // MOVHLPS
        cell!(194 568), // MOVHLPS
        cell!(194 568), // MOVHLPS
        cell!(194 568), // MOVHLPS
        cell!(194 568), // MOVHLPS
        cell!(194 568), // MOVHLPS
        cell!(194 568), // MOVHLPS
        cell!(194 568), // MOVHLPS
    ], // 0f12
    [
        cell!(195 196), // MOVHPS
        cell!(195 196), // MOVHPS
        cell!(195 196), // MOVHPS
        cell!(195 196), // MOVHPS
        cell!(195 196), // MOVHPS
        cell!(195 196), // MOVHPS
        cell!(195 196), // MOVHPS
        cell!(195 196), // MOVHPS
        cell!(196 569), // MOVLHPS
        cell!(196 569), // MOVLHPS
        cell!(196 569), // MOVLHPS
        cell!(196 569), // MOVLHPS
        cell!(196 569), // MOVLHPS
        cell!(196 569), // MOVLHPS
        cell!(196 569), // MOVLHPS
        cell!(196 569), // MOVLHPS
    ], // 0f16
    [
        cell!(0 0), // -
        cell!(0 0), // -
        cell!(0 0), // -
        cell!(0 0), // -
        cell!(0 0), // -
        cell!(0 0), // -
        cell!(0 0), // -
        cell!(0 0), // -
        cell!(0 0), // -
        cell!(0 0), // -
        cell!(0 0), // -
        cell!(0 0), // -
        cell!(0 0), // -
        cell!(0 0), // -
        cell!(0 0), // -
        cell!(0 0), // -
    ], // 660f78
    [
        cell!(201 76), // NOP
        cell!(201 76), // NOP
        cell!(201 76), // NOP
        cell!(201 76), // NOP
        cell!(201 76), // NOP
        cell!(201 76), // NOP
        cell!(201 76), // NOP
        cell!(201 76), // NOP
        cell!(201 76), // NOP
        cell!(201 76), // NOP
        cell!(201 76), // NOP
        cell!(201 76), // NOP
        cell!(201 76), // NOP
        cell!(201 76), // NOP
        cell!(201 76), // NOP
        cell!(0 0), // -
    ], // f30f1e
    [
        cell!(0 0), // -
        cell!(0 0), // -
        cell!(0 0), // -
        cell!(0 0), // -
        cell!(0 0), // -
        cell!(0 0), // -
        cell!(0 0), // -
        cell!(0 0), // -
        cell!(0 0), // -
        cell!(0 0), // -
        cell!(0 0), // -
        cell!(0 0), // -
        cell!(0 0), // -
        cell!(0 0), // -
        cell!(0 0), // -
        cell!(0 0), // -
    ], // f20f78
    [
        cell!(204 424), // AESENCWIDE128KL
        cell!(204 420), // AESDECWIDE128KL
        cell!(205 425), // AESENCWIDE256KL
        cell!(205 421), // AESDECWIDE256KL
        cell!(0 0), // -
        cell!(0 0), // -
        cell!(0 0), // -
        cell!(0 0), // -
        cell!(0 0), // -
        cell!(0 0), // -
        cell!(0 0), // -
        cell!(0 0), // -
        cell!(0 0), // -
        cell!(0 0), // -
        cell!(0 0), // -
        cell!(0 0), // -
    ], // f30f38d8
    [
        cell!(208 422), // AESENC128KL
        cell!(208 422), // AESENC128KL
        cell!(208 422), // AESENC128KL
        cell!(208 422), // AESENC128KL
        cell!(208 422), // AESENC128KL
        cell!(208 422), // AESENC128KL
        cell!(208 422), // AESENC128KL
        cell!(208 422), // AESENC128KL
        cell!(209 563), // LOADIWKEY
        cell!(209 563), // LOADIWKEY
        cell!(209 563), // LOADIWKEY
        cell!(209 563), // LOADIWKEY
        cell!(209 563), // LOADIWKEY
        cell!(209 563), // LOADIWKEY
        cell!(209 563), // LOADIWKEY
        cell!(209 563), // LOADIWKEY
    ], // f30f38dc
    [
        cell!(210 418), // AESDEC128KL
        cell!(210 418), // AESDEC128KL
        cell!(210 418), // AESDEC128KL
        cell!(210 418), // AESDEC128KL
        cell!(210 418), // AESDEC128KL
        cell!(210 418), // AESDEC128KL
        cell!(210 418), // AESDEC128KL
        cell!(210 418), // AESDEC128KL
        cell!(0 0), // -
        cell!(0 0), // -
        cell!(0 0), // -
        cell!(0 0), // -
        cell!(0 0), // -
        cell!(0 0), // -
        cell!(0 0), // -
        cell!(0 0), // -
    ], // f30f38dd
    [
        cell!(212 423), // AESENC256KL
        cell!(212 423), // AESENC256KL
        cell!(212 423), // AESENC256KL
        cell!(212 423), // AESENC256KL
        cell!(212 423), // AESENC256KL
        cell!(212 423), // AESENC256KL
        cell!(212 423), // AESENC256KL
        cell!(212 423), // AESENC256KL
        cell!(0 0), // -
        cell!(0 0), // -
        cell!(0 0), // -
        cell!(0 0), // -
        cell!(0 0), // -
        cell!(0 0), // -
        cell!(0 0), // -
        cell!(0 0), // -
    ], // f30f38de
    [
        cell!(214 419), // AESDEC256KL
        cell!(214 419), // AESDEC256KL
        cell!(214 419), // AESDEC256KL
        cell!(214 419), // AESDEC256KL
        cell!(214 419), // AESDEC256KL
        cell!(214 419), // AESDEC256KL
        cell!(214 419), // AESDEC256KL
        cell!(214 419), // AESDEC256KL
        cell!(0 0), // -
        cell!(0 0), // -
        cell!(0 0), // -
        cell!(0 0), // -
        cell!(0 0), // -
        cell!(0 0), // -
        cell!(0 0), // -
        cell!(0 0), // -
    ], // f30f38df
    [
        cell!(0 0), // -
        cell!(0 0), // -
        cell!(0 0), // -
        cell!(0 0), // -
        cell!(0 0), // -
        cell!(0 0), // -
        cell!(0 0), // -
        cell!(0 0), // -
        cell!(216 448), // ENCODEKEY128
        cell!(216 448), // ENCODEKEY128
        cell!(216 448), // ENCODEKEY128
        cell!(216 448), // ENCODEKEY128
        cell!(216 448), // ENCODEKEY128
        cell!(216 448), // ENCODEKEY128
        cell!(216 448), // ENCODEKEY128
        cell!(216 448), // ENCODEKEY128
    ], // f30f38fa
    [
        cell!(0 0), // -
        cell!(0 0), // -
        cell!(0 0), // -
        cell!(0 0), // -
        cell!(0 0), // -
        cell!(0 0), // -
        cell!(0 0), // -
        cell!(0 0), // -
        cell!(218 449), // ENCODEKEY256
        cell!(218 449), // ENCODEKEY256
        cell!(218 449), // ENCODEKEY256
        cell!(218 449), // ENCODEKEY256
        cell!(218 449), // ENCODEKEY256
        cell!(218 449), // ENCODEKEY256
        cell!(218 449), // ENCODEKEY256
        cell!(218 449), // ENCODEKEY256
    ], // f30f38fb
];
