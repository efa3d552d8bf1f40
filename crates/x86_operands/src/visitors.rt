//! Visitors of operands.
ghost use Rattle.std.specs.Prelude.{◌≡◌, Result, true};
ghost use Rattle.x86_operands.specs.Operands.{is_masked, Visit, visit_of, visit_base_index_masked, visit_base_index_disp_masked};

use crate::operands::Operand;
use x86_regs::{MergeMode, RegSpec, SaeMode};

/// A visitor of operands: one call for each kind, with the operand's fields.
///
/// `visit_base_index_masked` and `visit_base_index_disp_masked` name no operand, and are never called here.
pub trait OperandVisitor {
    type Ok;

    type Error;

    /// What a call may answer, and what it may leave of the visitor.
    ghost answers: { Visit → Self → Self → Result Self.Ok Self.Error → Type 0 };

    fn visit_reg(&mut self, reg: RegSpec) -> Result<Self::Ok, Self::Error>
        ensures { answers (visit_of (Operand.Register reg)) self.old self.new result };

    fn visit_deref(&mut self, reg: RegSpec) -> Result<Self::Ok, Self::Error>
        ensures { answers (visit_of (Operand.MemDeref reg)) self.old self.new result };

    fn visit_disp(&mut self, reg: RegSpec, disp: i32) -> Result<Self::Ok, Self::Error>
        ensures { answers (visit_of (Operand.Disp reg disp)) self.old self.new result };

    fn visit_index_scale(&mut self, reg: RegSpec, scale: u8) -> Result<Self::Ok, Self::Error>
        ensures { answers (visit_of (Operand.MemIndexScale reg scale)) self.old self.new result };

    fn visit_index_scale_disp(
        &mut self,
        reg: RegSpec,
        scale: u8,
        disp: i32,
    ) -> Result<Self::Ok, Self::Error>
        ensures { answers (visit_of (Operand.MemIndexScaleDisp reg scale disp))
            self.old self.new result };

    fn visit_base_index_scale(
        &mut self,
        base: RegSpec,
        index: RegSpec,
        scale: u8,
    ) -> Result<Self::Ok, Self::Error>
        ensures { answers (visit_of (Operand.MemBaseIndexScale base index scale))
            self.old self.new result };

    fn visit_base_index_scale_disp(
        &mut self,
        base: RegSpec,
        index: RegSpec,
        scale: u8,
        disp: i32,
    ) -> Result<Self::Ok, Self::Error>
        ensures { answers (visit_of (Operand.MemBaseIndexScaleDisp base index scale disp))
            self.old self.new result };

    fn visit_i8(&mut self, imm: i8) -> Result<Self::Ok, Self::Error>
        ensures { answers (visit_of (Operand.ImmediateI8 imm)) self.old self.new result };

    fn visit_u8(&mut self, imm: u8) -> Result<Self::Ok, Self::Error>
        ensures { answers (visit_of (Operand.ImmediateU8 imm)) self.old self.new result };

    fn visit_i16(&mut self, imm: i16) -> Result<Self::Ok, Self::Error>
        ensures { answers (visit_of (Operand.ImmediateI16 imm)) self.old self.new result };

    fn visit_u16(&mut self, imm: u16) -> Result<Self::Ok, Self::Error>
        ensures { answers (visit_of (Operand.ImmediateU16 imm)) self.old self.new result };

    fn visit_i32(&mut self, imm: i32) -> Result<Self::Ok, Self::Error>
        ensures { answers (visit_of (Operand.ImmediateI32 imm)) self.old self.new result };

    fn visit_u32(&mut self, imm: u32) -> Result<Self::Ok, Self::Error>
        ensures { answers (visit_of (Operand.ImmediateU32 imm)) self.old self.new result };

    fn visit_i64(&mut self, imm: i64) -> Result<Self::Ok, Self::Error>
        ensures { answers (visit_of (Operand.ImmediateI64 imm)) self.old self.new result };

    fn visit_u64(&mut self, imm: u64) -> Result<Self::Ok, Self::Error>
        ensures { answers (visit_of (Operand.ImmediateU64 imm)) self.old self.new result };

    fn visit_abs_u32(&mut self, imm: u32) -> Result<Self::Ok, Self::Error>
        ensures { answers (visit_of (Operand.AbsoluteU32 imm)) self.old self.new result };

    fn visit_abs_u64(&mut self, imm: u64) -> Result<Self::Ok, Self::Error>
        ensures { answers (visit_of (Operand.AbsoluteU64 imm)) self.old self.new result };

    fn visit_reg_mask_merge(
        &mut self,
        base: RegSpec,
        mask: RegSpec,
        merge_mode: MergeMode,
    ) -> Result<Self::Ok, Self::Error>
        ensures { answers (visit_of (Operand.RegisterMaskMerge base mask merge_mode))
            self.old self.new result };

    fn visit_reg_mask_merge_sae(
        &mut self,
        base: RegSpec,
        mask: RegSpec,
        merge_mode: MergeMode,
        sae_mode: SaeMode,
    ) -> Result<Self::Ok, Self::Error>
        ensures { answers (visit_of (Operand.RegisterMaskMergeSae base mask merge_mode sae_mode))
            self.old self.new result };

    fn visit_reg_mask_merge_sae_noround(
        &mut self,
        base: RegSpec,
        mask: RegSpec,
        merge_mode: MergeMode,
    ) -> Result<Self::Ok, Self::Error>
        ensures { answers (visit_of (Operand.RegisterMaskMergeSaeNoround base mask merge_mode))
            self.old self.new result };

    fn visit_deref_masked(
        &mut self,
        base: RegSpec,
        mask_reg: RegSpec,
    ) -> Result<Self::Ok, Self::Error>
        ensures { answers (visit_of (Operand.MemDerefMasked base mask_reg))
            self.old self.new result };

    fn visit_disp_masked(
        &mut self,
        base: RegSpec,
        disp: i32,
        mask_reg: RegSpec,
    ) -> Result<Self::Ok, Self::Error>
        ensures { answers (visit_of (Operand.DispMasked base disp mask_reg))
            self.old self.new result };

    fn visit_index_scale_masked(
        &mut self,
        base: RegSpec,
        scale: u8,
        mask_reg: RegSpec,
    ) -> Result<Self::Ok, Self::Error>
        ensures { answers (visit_of (Operand.MemIndexScaleMasked base scale mask_reg))
            self.old self.new result };

    fn visit_index_scale_disp_masked(
        &mut self,
        base: RegSpec,
        scale: u8,
        disp: i32,
        mask_reg: RegSpec,
    ) -> Result<Self::Ok, Self::Error>
        ensures { answers (visit_of (Operand.MemIndexScaleDispMasked base scale disp mask_reg))
            self.old self.new result };

    fn visit_base_index_masked(
        &mut self,
        base: RegSpec,
        index: RegSpec,
        mask_reg: RegSpec,
    ) -> Result<Self::Ok, Self::Error>
        ensures { answers (visit_base_index_masked base index mask_reg) self.old self.new result };

    fn visit_base_index_disp_masked(
        &mut self,
        base: RegSpec,
        index: RegSpec,
        disp: i32,
        mask_reg: RegSpec,
    ) -> Result<Self::Ok, Self::Error>
        ensures { answers (visit_base_index_disp_masked base index disp mask_reg)
            self.old self.new result };

    fn visit_base_index_scale_masked(
        &mut self,
        base: RegSpec,
        index: RegSpec,
        scale: u8,
        mask_reg: RegSpec,
    ) -> Result<Self::Ok, Self::Error>
        ensures { answers (visit_of (Operand.MemBaseIndexScaleMasked base index scale mask_reg))
            self.old self.new result };

    fn visit_base_index_scale_disp_masked(
        &mut self,
        base: RegSpec,
        index: RegSpec,
        scale: u8,
        disp: i32,
        mask_reg: RegSpec,
    ) -> Result<Self::Ok, Self::Error>
        ensures { answers
            (visit_of (Operand.MemBaseIndexScaleDispMasked base index scale disp mask_reg))
            self.old self.new result };

    fn visit_other(&mut self) -> Result<Self::Ok, Self::Error>
        ensures { answers (visit_of Operand.Nothing) self.old self.new result };
}

impl Operand {
    /// Makes the one call that names the operand, with its fields, and answers what that answers.
    pub fn visit<T: OperandVisitor>(&self, visitor: &mut T) -> Result<T::Ok, T::Error>
        ensures { T.answers (visit_of self.now) visitor.old visitor.new result }
    {
        match *self {
            Operand::Register { reg } => visitor.visit_reg(reg),
            Operand::MemDeref { base } => visitor.visit_deref(base),
            Operand::Disp { base, disp } => visitor.visit_disp(base, disp),
            Operand::MemIndexScale { index, scale } => visitor.visit_index_scale(index, scale),
            Operand::MemIndexScaleDisp { index, scale, disp } => visitor.visit_index_scale_disp(
                index, scale, disp,
            ),
            Operand::MemBaseIndexScale { base, index, scale } => visitor.visit_base_index_scale(
                base, index, scale,
            ),
            Operand::MemBaseIndexScaleDisp {
                base,
                index,
                scale,
                disp,
            } => visitor.visit_base_index_scale_disp(base, index, scale, disp),
            Operand::ImmediateI8 { imm } => visitor.visit_i8(imm),
            Operand::ImmediateU8 { imm } => visitor.visit_u8(imm),
            Operand::ImmediateI16 { imm } => visitor.visit_i16(imm),
            Operand::ImmediateU16 { imm } => visitor.visit_u16(imm),
            Operand::ImmediateI32 { imm } => visitor.visit_i32(imm),
            Operand::ImmediateU32 { imm } => visitor.visit_u32(imm),
            Operand::ImmediateI64 { imm } => visitor.visit_i64(imm),
            Operand::ImmediateU64 { imm } => visitor.visit_u64(imm),
            Operand::AbsoluteU32 { addr } => visitor.visit_abs_u32(addr),
            Operand::AbsoluteU64 { addr } => visitor.visit_abs_u64(addr),
            Operand::Nothing => visitor.visit_other(),
            _ => self.visit_masked(visitor),
        }
    }

    /// The same of a masked operand.
    fn visit_masked<T: OperandVisitor>(&self, visitor: &mut T) -> Result<T::Ok, T::Error>
        requires { is_masked self.now ≡ true }
        ensures { T.answers (visit_of self.now) visitor.old visitor.new result }
    {
        match *self {
            Operand::RegisterMaskMerge { reg, mask, merge } => visitor.visit_reg_mask_merge(
                reg, mask, merge,
            ),
            Operand::RegisterMaskMergeSae {
                reg,
                mask,
                merge,
                sae,
            } => visitor.visit_reg_mask_merge_sae(reg, mask, merge, sae),
            Operand::RegisterMaskMergeSaeNoround { reg, mask, merge } =>
                visitor.visit_reg_mask_merge_sae_noround(reg, mask, merge),
            Operand::MemDerefMasked { base, mask } => visitor.visit_deref_masked(base, mask),
            Operand::DispMasked { base, disp, mask } => visitor.visit_disp_masked(base, disp, mask),
            Operand::MemIndexScaleMasked { index, scale, mask } => visitor.visit_index_scale_masked(
                index, scale, mask,
            ),
            Operand::MemIndexScaleDispMasked {
                index,
                scale,
                disp,
                mask,
            } => visitor.visit_index_scale_disp_masked(index, scale, disp, mask),
            Operand::MemBaseIndexScaleMasked {
                base,
                index,
                scale,
                mask,
            } => visitor.visit_base_index_scale_masked(base, index, scale, mask),
            Operand::MemBaseIndexScaleDispMasked {
                base,
                index,
                scale,
                disp,
                mask,
            } => visitor.visit_base_index_scale_disp_masked(base, index, scale, disp, mask),
            _ => visitor.visit_other(),
        }
    }
}
