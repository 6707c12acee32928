//! Tests of the table and the library. Nothing else stands here.
#![tactic(auto)]

#[cfg(test)]
mod tests {
    use nres_core::{LibName, Op, RowCode};
    use rule_table::{library, row_of};
    use std::test::Fail;
    use target_code::Rep;

    #[test]
    fn all_procedures_are_made(rt: HostRuntime) -> Result<(), Fail> {
        let procs = library(rt.alloc())?;
        assert_eq!(rt; procs.len(), 52);
        Ok(())
    }

    #[test]
    fn a_row_is_found(rt: HostRuntime) -> Result<(), Fail> {
        let code = row_of(Op::Union, &[Rep::Bits(7), Rep::Bits(7)], None).map(|row| row.code);
        assert!(rt; code == Some(RowCode::Proc(LibName::BitsUnion)));
        assert!(rt; row_of(Op::Union, &[Rep::Bits(7), Rep::Bits(8)], None).is_none());
        assert!(rt; row_of(Op::Zeros, &[Rep::Word], Some(Rep::Vec)).is_none());
        Ok(())
    }
}
