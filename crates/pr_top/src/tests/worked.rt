// Worked scripts: what streams bring.
use super::gives;
use std::test::Fail;

const FILTERING: &[u8] = b"node A\nnode B a/*\nclient c A\nclient d B\nstream s A B a/*\nattach s\n\
    write c b/y \"no\"\nwrite c a/x \"yes\"\nsend s\ndeliver s 1\nsend s\ndeliver s 2\n\
    read d b/y\nread d a/x\nread d a/z\nstate B\n";

const FILTERING_TEXT: &[u8] =
    b"node A\nnode B a/*\nclient c A\nclient d B\nstream s A B a/*\nattach s at -\n\
    write c b/y \"no\" 1@A over - after -\nwrite c a/x \"yes\" 2@A over - after A:1\n\
    send s 1 imprecise b/y from - to A:1\naccept s 1 at A:1\n\
    send s 2 precise a/x 2@A over - from A:1 to A:2\naccept s 2 at A:2\n\
    read d b/y imprecise 1@A at A:2\nread d a/x body 2@A at A:2\nread d a/z never at A:2\n\
    state B at A:2 cut - floor - precise A:2 -\nok 16\n";

const LOST_AND_REPEATED: &[u8] =
    b"node A\nnode B a/*\nclient c A\nclient d B\nstream s A B a/*\nattach s\n\
    write c b/y \"no\"\nwrite c a/x \"yes\"\nsend s\nsend s\ndeliver s 2\ndeliver s 1\n\
    deliver s 1\ndeliver s 2\ndeliver s 3\n";

const LOST_AND_REPEATED_TEXT: &[u8] =
    b"node A\nnode B a/*\nclient c A\nclient d B\nstream s A B a/*\nattach s at -\n\
    write c b/y \"no\" 1@A over - after -\nwrite c a/x \"yes\" 2@A over - after A:1\n\
    send s 1 imprecise b/y from - to A:1\nsend s 2 precise a/x 2@A over - from A:1 to A:2\n\
    gap s 2 needs A:1 has -\naccept s 1 at A:1\naccept s 1 at A:1\naccept s 2 at A:2\n\
    missing s 3\nok 15\n";

const COARSE_16: &[u8] =
    b"node A\nnode B a/*\nclient c A\nstream s A B a/*\nattach s\nwrite c a/p \"\"\n\
    write c b/00 \"\"\nwrite c b/01 \"\"\nwrite c b/02 \"\"\nwrite c b/03 \"\"\n\
    write c b/04 \"\"\nwrite c b/05 \"\"\nwrite c b/06 \"\"\nwrite c b/07 \"\"\n\
    write c b/08 \"\"\nwrite c b/09 \"\"\nwrite c b/10 \"\"\nwrite c b/11 \"\"\n\
    write c b/12 \"\"\nwrite c b/13 \"\"\nwrite c b/14 \"\"\nwrite c b/15 \"\"\n\
    write c a/q \"\"\nsend s\nsend s\nsend s\nsend s\n";

const COARSE_16_TEXT: &[u8] = b"node A\nnode B a/*\nclient c A\nstream s A B a/*\nattach s at -\n\
    write c a/p \"\" 1@A over - after -\nwrite c b/00 \"\" 2@A over - after A:1\n\
    write c b/01 \"\" 3@A over - after A:2\nwrite c b/02 \"\" 4@A over - after A:3\n\
    write c b/03 \"\" 5@A over - after A:4\nwrite c b/04 \"\" 6@A over - after A:5\n\
    write c b/05 \"\" 7@A over - after A:6\nwrite c b/06 \"\" 8@A over - after A:7\n\
    write c b/07 \"\" 9@A over - after A:8\nwrite c b/08 \"\" 10@A over - after A:9\n\
    write c b/09 \"\" 11@A over - after A:10\nwrite c b/10 \"\" 12@A over - after A:11\n\
    write c b/11 \"\" 13@A over - after A:12\nwrite c b/12 \"\" 14@A over - after A:13\n\
    write c b/13 \"\" 15@A over - after A:14\nwrite c b/14 \"\" 16@A over - after A:15\n\
    write c b/15 \"\" 17@A over - after A:16\nwrite c a/q \"\" 18@A over - after A:17\n\
    send s 1 precise a/p 1@A over - from - to A:1\n\
    send s 2 imprecise b/00,b/01,b/02,b/03,b/04,b/05,b/06,b/07,b/08,b/09,b/10,b/11,b/12,b/13,b/14,b/15 from A:1 to A:17\n\
    send s 3 precise a/q 18@A over - from A:17 to A:18\nidle s\nok 27\n";

const COARSE_17: &[u8] =
    b"node A\nnode B a/*\nclient c A\nstream s A B a/*\nattach s\nwrite c a/p \"\"\n\
    write c b/00 \"\"\nwrite c b/01 \"\"\nwrite c b/02 \"\"\nwrite c b/03 \"\"\n\
    write c b/04 \"\"\nwrite c b/05 \"\"\nwrite c b/06 \"\"\nwrite c b/07 \"\"\n\
    write c b/08 \"\"\nwrite c b/09 \"\"\nwrite c b/10 \"\"\nwrite c b/11 \"\"\n\
    write c b/12 \"\"\nwrite c b/13 \"\"\nwrite c b/14 \"\"\nwrite c b/15 \"\"\n\
    write c b/16 \"\"\nwrite c a/q \"\"\nsend s\nsend s\nsend s\nsend s\n";

const COARSE_17_TEXT: &[u8] = b"node A\nnode B a/*\nclient c A\nstream s A B a/*\nattach s at -\n\
    write c a/p \"\" 1@A over - after -\nwrite c b/00 \"\" 2@A over - after A:1\n\
    write c b/01 \"\" 3@A over - after A:2\nwrite c b/02 \"\" 4@A over - after A:3\n\
    write c b/03 \"\" 5@A over - after A:4\nwrite c b/04 \"\" 6@A over - after A:5\n\
    write c b/05 \"\" 7@A over - after A:6\nwrite c b/06 \"\" 8@A over - after A:7\n\
    write c b/07 \"\" 9@A over - after A:8\nwrite c b/08 \"\" 10@A over - after A:9\n\
    write c b/09 \"\" 11@A over - after A:10\nwrite c b/10 \"\" 12@A over - after A:11\n\
    write c b/11 \"\" 13@A over - after A:12\nwrite c b/12 \"\" 14@A over - after A:13\n\
    write c b/13 \"\" 15@A over - after A:14\nwrite c b/14 \"\" 16@A over - after A:15\n\
    write c b/15 \"\" 17@A over - after A:16\nwrite c b/16 \"\" 18@A over - after A:17\n\
    write c a/q \"\" 19@A over - after A:18\nsend s 1 precise a/p 1@A over - from - to A:1\n\
    send s 2 imprecise -:a/,a0:~ from A:1 to A:18\n\
    send s 3 precise a/q 19@A over - from A:18 to A:19\nidle s\nok 28\n";

const EQUAL_CLOCKS: &[u8] =
    b"node A *\nnode B *\nclient c A\nclient d B\nstream s A B * bodies\nattach s\n\
    write c a/x \"one\"\nwrite d a/x \"two\"\nflow s 3\nread d a/x\nconflicts B a/x\n\
    read c a/x\nconflicts A a/x\n";

const EQUAL_CLOCKS_TEXT: &[u8] =
    b"node A *\nnode B *\nclient c A\nclient d B\nstream s A B * bodies\nattach s at -\n\
    write c a/x \"one\" 1@A over - after -\nwrite d a/x \"two\" 1@B over - after -\n\
    send s 1 precise a/x 1@A over - from - to A:1\naccept s 1 at A:1,B:1\n\
    send s 2 body a/x 1@A \"one\"\naccept s 2 at A:1,B:1\nidle s\n\
    read d a/x value 1@B \"two\" at A:1,B:1\nconflicts B a/x 1@A|1@B\n\
    read c a/x value 1@A \"one\" at A:1\nconflicts A a/x -\nok 17\n";

const LATE_STAMP: &[u8] =
    b"node A\nnode B *\nnode C *\nclient c A\nclient d B\nclient e C\nstream s A B *\n\
    stream t B C *\nattach s\nattach t\nwrite c a/x \"late\"\nwrite d a/y \"one\"\n\
    write d a/y \"two\"\nflow t 3\nflow s 2\nflow t 2\nread e a/x\n";

const LATE_STAMP_TEXT: &[u8] =
    b"node A\nnode B *\nnode C *\nclient c A\nclient d B\nclient e C\nstream s A B *\n\
    stream t B C *\nattach s at -\nattach t at -\nwrite c a/x \"late\" 1@A over - after -\n\
    write d a/y \"one\" 1@B over - after -\nwrite d a/y \"two\" 2@B over 1@B after B:1\n\
    send t 1 precise a/y 1@B over - from - to B:1\naccept t 1 at B:1\n\
    send t 2 precise a/y 2@B over 1@B from B:1 to B:2\naccept t 2 at B:2\nidle t\n\
    send s 1 precise a/x 1@A over - from - to A:1\naccept s 1 at A:1,B:2\nidle s\n\
    send t 3 precise a/x 1@A over - from B:2 to A:1,B:2\naccept t 3 at A:1,B:2\nidle t\n\
    read e a/x body 1@A at A:1,B:2\nok 25\n";

const RING: &[u8] =
    b"node A a/*\nnode B b/*\nnode C c/*\nclient p A\nclient q B\nclient r C\nstream s A B *\n\
    stream t B C *\nstream u C A *\nattach s\nattach t\nattach u\nwrite p a/1 \"\"\n\
    write q b/1 \"\"\nwrite r c/1 \"\"\nsettle\nread p c/1\nread q c/1\nstate C\n";

const RING_TEXT: &[u8] =
    b"node A a/*\nnode B b/*\nnode C c/*\nclient p A\nclient q B\nclient r C\nstream s A B *\n\
    stream t B C *\nstream u C A *\nattach s at -\nattach t at -\nattach u at -\n\
    write p a/1 \"\" 1@A over - after -\nwrite q b/1 \"\" 1@B over - after -\n\
    write r c/1 \"\" 1@C over - after -\nattach s at B:1\nattach t at C:1\nattach u at A:1\n\
    send s 1 precise a/1 1@A over - from B:1 to A:1,B:1\naccept s 1 at A:1,B:1\nidle s\n\
    send t 1 precise a/1 1@A over - from C:1 to A:1,C:1\naccept t 1 at A:1,C:1\n\
    send t 2 precise b/1 1@B over - from A:1,C:1 to A:1,B:1,C:1\naccept t 2 at A:1,B:1,C:1\n\
    idle t\nsend u 1 precise b/1 1@B over - from A:1 to A:1,B:1\naccept u 1 at A:1,B:1\n\
    send u 2 precise c/1 1@C over - from A:1,B:1 to A:1,B:1,C:1\naccept u 2 at A:1,B:1,C:1\n\
    idle u\nsend s 2 precise c/1 1@C over - from A:1,B:1 to A:1,B:1,C:1\n\
    accept s 2 at A:1,B:1,C:1\nidle s\nidle t\nidle u\nidle s\nidle t\nidle u\n\
    read p c/1 body 1@C at A:1,B:1,C:1\nread q c/1 body 1@C at A:1,B:1,C:1\n\
    state C at A:1,B:1,C:1 cut - floor - precise A:1,B:1,C:1 A:1,B:1,C:1\nok 42\n";

const CUT_AND_CHECKPOINT: &[u8] =
    b"node A *\nnode B *\nnode C *\nclient c A\nclient d B\nclient e C\n\
    stream s A B * bodies\nstream t B C *\nwrite c a/x \"1\"\nwrite c a/x \"2\"\n\
    write c b/y \"3\"\ncut A\nattach s\nsend s\ncheckpoint s\ndeliver s 1\nread d a/x\n\
    send s\ndeliver s 2\nread d a/x\nattach t\nsend t\ndeliver t 1\nread e a/x\n\
    checkpoint t\ndeliver t 2\nread e a/x\n";

const CUT_AND_CHECKPOINT_TEXT: &[u8] =
    b"node A *\nnode B *\nnode C *\nclient c A\nclient d B\nclient e C\n\
    stream s A B * bodies\nstream t B C *\nwrite c a/x \"1\" 1@A over - after -\n\
    write c a/x \"2\" 2@A over 1@A after A:1\nwrite c b/y \"3\" 3@A over - after A:2\n\
    cut A at A:3\nattach s at -\nstale s cut A:3\n\
    send s 1 checkpoint ~ to A:3 floor A:3 rows a/x=2@A(),b/y=3@A()\naccept s 1 at A:3\n\
    read d a/x body 2@A at A:3\nsend s 2 body a/x 2@A \"2\"\naccept s 2 at A:3\n\
    read d a/x value 2@A \"2\" at A:3\nattach t at -\nsend t 1 imprecise * from - to A:3\n\
    accept t 1 at A:3\nread e a/x imprecise 1@A at A:3\n\
    send t 2 checkpoint ~ to A:3 floor A:3 rows a/x=2@A(),b/y=3@A()\naccept t 2 at A:3\n\
    read e a/x body 2@A at A:3\nok 27\n";

#[test]
fn filtering(rt: HostRuntime) -> Result<(), Fail> {
    assert!(rt; gives(&rt, rt.alloc(), FILTERING, FILTERING_TEXT)?);
    Ok(())
}

#[test]
fn lost_and_repeated(rt: HostRuntime) -> Result<(), Fail> {
    assert!(rt; gives(&rt, rt.alloc(), LOST_AND_REPEATED, LOST_AND_REPEATED_TEXT)?);
    Ok(())
}

#[test]
fn coarse_16(rt: HostRuntime) -> Result<(), Fail> {
    assert!(rt; gives(&rt, rt.alloc(), COARSE_16, COARSE_16_TEXT)?);
    Ok(())
}

#[test]
fn coarse_17(rt: HostRuntime) -> Result<(), Fail> {
    assert!(rt; gives(&rt, rt.alloc(), COARSE_17, COARSE_17_TEXT)?);
    Ok(())
}

#[test]
fn equal_clocks(rt: HostRuntime) -> Result<(), Fail> {
    assert!(rt; gives(&rt, rt.alloc(), EQUAL_CLOCKS, EQUAL_CLOCKS_TEXT)?);
    Ok(())
}

#[test]
fn late_stamp(rt: HostRuntime) -> Result<(), Fail> {
    assert!(rt; gives(&rt, rt.alloc(), LATE_STAMP, LATE_STAMP_TEXT)?);
    Ok(())
}

#[test]
fn ring(rt: HostRuntime) -> Result<(), Fail> {
    assert!(rt; gives(&rt, rt.alloc(), RING, RING_TEXT)?);
    Ok(())
}

#[test]
fn cut_and_checkpoint(rt: HostRuntime) -> Result<(), Fail> {
    assert!(rt; gives(&rt, rt.alloc(), CUT_AND_CHECKPOINT, CUT_AND_CHECKPOINT_TEXT)?);
    Ok(())
}
