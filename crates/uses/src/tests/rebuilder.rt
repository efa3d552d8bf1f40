//! The visitor of docs/GUIDE.md: it puts the operand together again, from the call that was made on it.
ghost use Rattle.std.specs.Prelude.{⊤};

use x86_decode::{MergeMode, Operand, OperandVisitor, RegSpec, SaeMode};

/// Answers the operand whose call this is, with the fields of the call.
#[derive(Drop)]
pub struct Rebuilder;

impl OperandVisitor for Rebuilder {
    type Ok = Operand;

    type Error = ();

    ghost answers = { λ call old new result. ⊤ };

    fn visit_reg(&mut self, reg: RegSpec) -> Result<Operand, ()> {
        Ok(Operand::Register { reg })
    }

    fn visit_deref(&mut self, reg: RegSpec) -> Result<Operand, ()> {
        Ok(Operand::MemDeref { base: reg })
    }

    fn visit_disp(&mut self, reg: RegSpec, disp: i32) -> Result<Operand, ()> {
        Ok(Operand::Disp { base: reg, disp })
    }

    fn visit_index_scale(&mut self, reg: RegSpec, scale: u8) -> Result<Operand, ()> {
        Ok(Operand::MemIndexScale { index: reg, scale })
    }

    fn visit_index_scale_disp(
        &mut self,
        reg: RegSpec,
        scale: u8,
        disp: i32,
    ) -> Result<Operand, ()> {
        Ok(Operand::MemIndexScaleDisp {
            index: reg,
            scale,
            disp,
        })
    }

    fn visit_base_index_scale(
        &mut self,
        base: RegSpec,
        index: RegSpec,
        scale: u8,
    ) -> Result<Operand, ()> {
        Ok(Operand::MemBaseIndexScale { base, index, scale })
    }

    fn visit_base_index_scale_disp(
        &mut self,
        base: RegSpec,
        index: RegSpec,
        scale: u8,
        disp: i32,
    ) -> Result<Operand, ()> {
        Ok(Operand::MemBaseIndexScaleDisp {
            base,
            index,
            scale,
            disp,
        })
    }

    fn visit_i8(&mut self, imm: i8) -> Result<Operand, ()> {
        Ok(Operand::ImmediateI8 { imm })
    }

    fn visit_u8(&mut self, imm: u8) -> Result<Operand, ()> {
        Ok(Operand::ImmediateU8 { imm })
    }

    fn visit_i16(&mut self, imm: i16) -> Result<Operand, ()> {
        Ok(Operand::ImmediateI16 { imm })
    }

    fn visit_u16(&mut self, imm: u16) -> Result<Operand, ()> {
        Ok(Operand::ImmediateU16 { imm })
    }

    fn visit_i32(&mut self, imm: i32) -> Result<Operand, ()> {
        Ok(Operand::ImmediateI32 { imm })
    }

    fn visit_u32(&mut self, imm: u32) -> Result<Operand, ()> {
        Ok(Operand::ImmediateU32 { imm })
    }

    fn visit_i64(&mut self, imm: i64) -> Result<Operand, ()> {
        Ok(Operand::ImmediateI64 { imm })
    }

    fn visit_u64(&mut self, imm: u64) -> Result<Operand, ()> {
        Ok(Operand::ImmediateU64 { imm })
    }

    fn visit_abs_u32(&mut self, imm: u32) -> Result<Operand, ()> {
        Ok(Operand::AbsoluteU32 { addr: imm })
    }

    fn visit_abs_u64(&mut self, imm: u64) -> Result<Operand, ()> {
        Ok(Operand::AbsoluteU64 { addr: imm })
    }

    fn visit_reg_mask_merge(
        &mut self,
        base: RegSpec,
        mask: RegSpec,
        merge_mode: MergeMode,
    ) -> Result<Operand, ()> {
        Ok(Operand::RegisterMaskMerge {
            reg: base,
            mask,
            merge: merge_mode,
        })
    }

    fn visit_reg_mask_merge_sae(
        &mut self,
        base: RegSpec,
        mask: RegSpec,
        merge_mode: MergeMode,
        sae_mode: SaeMode,
    ) -> Result<Operand, ()> {
        Ok(Operand::RegisterMaskMergeSae {
            reg: base,
            mask,
            merge: merge_mode,
            sae: sae_mode,
        })
    }

    fn visit_reg_mask_merge_sae_noround(
        &mut self,
        base: RegSpec,
        mask: RegSpec,
        merge_mode: MergeMode,
    ) -> Result<Operand, ()> {
        Ok(Operand::RegisterMaskMergeSaeNoround {
            reg: base,
            mask,
            merge: merge_mode,
        })
    }

    fn visit_deref_masked(&mut self, base: RegSpec, mask_reg: RegSpec) -> Result<Operand, ()> {
        Ok(Operand::MemDerefMasked {
            base,
            mask: mask_reg,
        })
    }

    fn visit_disp_masked(
        &mut self,
        base: RegSpec,
        disp: i32,
        mask_reg: RegSpec,
    ) -> Result<Operand, ()> {
        Ok(Operand::DispMasked {
            base,
            disp,
            mask: mask_reg,
        })
    }

    fn visit_index_scale_masked(
        &mut self,
        base: RegSpec,
        scale: u8,
        mask_reg: RegSpec,
    ) -> Result<Operand, ()> {
        Ok(Operand::MemIndexScaleMasked {
            index: base,
            scale,
            mask: mask_reg,
        })
    }

    fn visit_index_scale_disp_masked(
        &mut self,
        base: RegSpec,
        scale: u8,
        disp: i32,
        mask_reg: RegSpec,
    ) -> Result<Operand, ()> {
        Ok(Operand::MemIndexScaleDispMasked {
            index: base,
            scale,
            disp,
            mask: mask_reg,
        })
    }

    fn visit_base_index_masked(
        &mut self,
        base: RegSpec,
        index: RegSpec,
        mask_reg: RegSpec,
    ) -> Result<Operand, ()> {
        Ok(Operand::Nothing)
    }

    fn visit_base_index_disp_masked(
        &mut self,
        base: RegSpec,
        index: RegSpec,
        disp: i32,
        mask_reg: RegSpec,
    ) -> Result<Operand, ()> {
        Ok(Operand::Nothing)
    }

    fn visit_base_index_scale_masked(
        &mut self,
        base: RegSpec,
        index: RegSpec,
        scale: u8,
        mask_reg: RegSpec,
    ) -> Result<Operand, ()> {
        Ok(Operand::MemBaseIndexScaleMasked {
            base,
            index,
            scale,
            mask: mask_reg,
        })
    }

    fn visit_base_index_scale_disp_masked(
        &mut self,
        base: RegSpec,
        index: RegSpec,
        scale: u8,
        disp: i32,
        mask_reg: RegSpec,
    ) -> Result<Operand, ()> {
        Ok(Operand::MemBaseIndexScaleDispMasked {
            base,
            index,
            scale,
            disp,
            mask: mask_reg,
        })
    }

    fn visit_other(&mut self) -> Result<Operand, ()> {
        Ok(Operand::Nothing)
    }
}
