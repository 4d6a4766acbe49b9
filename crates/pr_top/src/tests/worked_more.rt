// Worked scripts: bodies, phases, deletes, and clients that move.
use super::gives;
use std::test::Fail;

const BODIES: &[u8] =
    b"node A *\nnode B *\nclient c A\nclient d B\nstream s A B * bodies\nattach s\n\
    write c a/x \"old\"\nsend s\nsend s\ndeliver s 2\nread d a/x\ndeliver s 1\nread d a/x\n\
    write c a/x \"new\"\nsend s\ndeliver s 3\ndeliver s 2\nread d a/x\nsend s\ndeliver s 4\n\
    read d a/x\ndrop B a/x\nread d a/x\nsend s\nattach s\nsend s\ndeliver s 5\nread d a/x\n";

const BODIES_TEXT: &[u8] =
    b"node A *\nnode B *\nclient c A\nclient d B\nstream s A B * bodies\nattach s at -\n\
    write c a/x \"old\" 1@A over - after -\nsend s 1 precise a/x 1@A over - from - to A:1\n\
    send s 2 body a/x 1@A \"old\"\naccept s 2 at -\nread d a/x never at -\n\
    accept s 1 at A:1\nread d a/x value 1@A \"old\" at A:1\n\
    write c a/x \"new\" 2@A over 1@A after A:1\n\
    send s 3 precise a/x 2@A over 1@A from A:1 to A:2\naccept s 3 at A:2\n\
    accept s 2 at A:2\nread d a/x body 2@A at A:2\nsend s 4 body a/x 2@A \"new\"\n\
    accept s 4 at A:2\nread d a/x value 2@A \"new\" at A:2\ndrop B a/x\n\
    read d a/x body 2@A at A:2\nidle s\nattach s at A:2\nsend s 5 body a/x 2@A \"new\"\n\
    accept s 5 at A:2\nread d a/x value 2@A \"new\" at A:2\nok 28\n";

pub const PHASE: &[u8] =
    b"node A *\nnode B *\nclient c A\nclient d B\nstream s A B *\nstream t B A *\nattach s\n\
    attach t\nphase\nwrite c a/x \"1\"\nread c a/x\nwrite d a/y \"2\"\nflow s 4\nflow t 4\n\
    end\n";

const PHASE_TEXT: &[u8] =
    b"node A *\nnode B *\nclient c A\nclient d B\nstream s A B *\nstream t B A *\n\
    attach s at -\nattach t at -\nwrite c a/x \"1\" 1@A over - after -\n\
    read c a/x value 1@A \"1\" at A:1\nwrite d a/y \"2\" 1@B over - after -\n\
    send s 1 precise a/x 1@A over - from - to A:1\naccept s 1 at A:1,B:1\nidle s\nidle s\n\
    idle s\nsend t 1 precise a/x 1@A over - from - to A:1\naccept t 1 at A:1\n\
    send t 2 precise a/y 1@B over - from A:1 to A:1,B:1\naccept t 2 at A:1,B:1\nidle t\n\
    idle t\nok 22\n";

const HOME: &[u8] =
    b"node home mail/* photo/*\nnode laptop mail/* photo/*\nnode phone mail/*\nclient u home\n\
    client v laptop\nclient w phone\nstream hl home laptop * bodies\n\
    stream hp home phone mail/* bodies\nstream lh laptop home * bodies\nattach hl\n\
    attach hp\nattach lh\nwrite u mail/1 \"Hello\"\nwrite u photo/1 \"beach\"\n\
    write u photo/2 \"hill\"\nwrite v mail/2 \"Draft\"\nsettle\nread w mail/2\n\
    read w photo/1\nwrite w mail/1 \"Read\"\nread w mail/1\n";

const HOME_TEXT: &[u8] =
    b"node home mail/* photo/*\nnode laptop mail/* photo/*\nnode phone mail/*\nclient u home\n\
    client v laptop\nclient w phone\nstream hl home laptop * bodies\n\
    stream hp home phone mail/* bodies\nstream lh laptop home * bodies\nattach hl at -\n\
    attach hp at -\nattach lh at -\nwrite u mail/1 \"Hello\" 1@home over - after -\n\
    write u photo/1 \"beach\" 2@home over - after home:1\n\
    write u photo/2 \"hill\" 3@home over - after home:2\n\
    write v mail/2 \"Draft\" 1@laptop over - after -\nattach hl at laptop:1\n\
    attach hp at -\nattach lh at home:3\n\
    send hl 1 precise mail/1 1@home over - from laptop:1 to home:1,laptop:1\n\
    accept hl 1 at home:1,laptop:1\n\
    send hl 2 precise photo/1 2@home over - from home:1,laptop:1 to home:2,laptop:1\n\
    accept hl 2 at home:2,laptop:1\n\
    send hl 3 precise photo/2 3@home over - from home:2,laptop:1 to home:3,laptop:1\n\
    accept hl 3 at home:3,laptop:1\nsend hl 4 body mail/1 1@home \"Hello\"\n\
    accept hl 4 at home:3,laptop:1\nsend hl 5 body photo/1 2@home \"beach\"\n\
    accept hl 5 at home:3,laptop:1\nsend hl 6 body photo/2 3@home \"hill\"\n\
    accept hl 6 at home:3,laptop:1\nidle hl\n\
    send hp 1 precise mail/1 1@home over - from - to home:1\naccept hp 1 at home:1\n\
    send hp 2 imprecise photo/1,photo/2 from home:1 to home:3\naccept hp 2 at home:3\n\
    send hp 3 body mail/1 1@home \"Hello\"\naccept hp 3 at home:3\nidle hp\n\
    send lh 1 precise mail/2 1@laptop over - from home:3 to home:3,laptop:1\n\
    accept lh 1 at home:3,laptop:1\nsend lh 2 body mail/1 1@home \"Hello\"\n\
    accept lh 2 at home:3,laptop:1\nsend lh 3 body mail/2 1@laptop \"Draft\"\n\
    accept lh 3 at home:3,laptop:1\nsend lh 4 body photo/1 2@home \"beach\"\n\
    accept lh 4 at home:3,laptop:1\nsend lh 5 body photo/2 3@home \"hill\"\n\
    accept lh 5 at home:3,laptop:1\nidle lh\nsend hl 7 body mail/2 1@laptop \"Draft\"\n\
    accept hl 7 at home:3,laptop:1\nidle hl\n\
    send hp 4 precise mail/2 1@laptop over - from home:3 to home:3,laptop:1\n\
    accept hp 4 at home:3,laptop:1\nsend hp 5 body mail/2 1@laptop \"Draft\"\n\
    accept hp 5 at home:3,laptop:1\nidle hp\nidle lh\nidle hl\nidle hp\nidle lh\n\
    read w mail/2 value 1@laptop \"Draft\" at home:3,laptop:1\n\
    read w photo/1 imprecise 2@home at home:3,laptop:1\n\
    write w mail/1 \"Read\" 4@phone over 1@home after home:3,laptop:1\n\
    read w mail/1 value 4@phone \"Read\" at home:3,laptop:1,phone:4\nok 66\n";

const BODIES_IN_NAME_ORDER: &[u8] =
    b"node A *\nnode B *\nclient c A\nstream s A B * bodies\nattach s\nwrite c b \"2\"\n\
    write c a \"1\"\nsend s\nsend s\nsend s\nsend s\nsend s\n";

const BODIES_IN_NAME_ORDER_TEXT: &[u8] =
    b"node A *\nnode B *\nclient c A\nstream s A B * bodies\nattach s at -\n\
    write c b \"2\" 1@A over - after -\nwrite c a \"1\" 2@A over - after A:1\n\
    send s 1 precise b 1@A over - from - to A:1\n\
    send s 2 precise a 2@A over - from A:1 to A:2\nsend s 3 body a 2@A \"1\"\n\
    send s 4 body b 1@A \"2\"\nidle s\nok 12\n";

const FLOOR: &[u8] =
    b"node A *\nclient c A\nwrite c a \"1\"\ncut A\nwrite c a \"2\"\nconflicts A a\nstate A\n";

const FLOOR_TEXT: &[u8] =
    b"node A *\nclient c A\nwrite c a \"1\" 1@A over - after -\ncut A at A:1\n\
    write c a \"2\" 2@A over 1@A after A:1\nconflicts A a -\n\
    state A at A:2 cut A:1 floor A:1 precise A:2 A:2\nok 7\n";

const DELETES: &[u8] =
    b"node A *\nnode B *\nclient c A\nclient d B\nstream s A B * bodies\nattach s\n\
    write c a/x \"hi\"\ndelete c a/x\nread c a/x\nexpect gone\nflow s 3\nread d a/x\n\
    delete c a/z\n";

const DELETES_TEXT: &[u8] =
    b"node A *\nnode B *\nclient c A\nclient d B\nstream s A B * bodies\nattach s at -\n\
    write c a/x \"hi\" 1@A over - after -\ndelete c a/x 2@A over 1@A after A:1\n\
    read c a/x gone 2@A at A:2\nsend s 1 precise a/x 1@A over - from - to A:1\n\
    accept s 1 at A:1\nsend s 2 gone a/x 2@A over 1@A from A:1 to A:2\naccept s 2 at A:2\n\
    idle s\nread d a/x gone 2@A at A:2\ndelete c a/z 3@A over - after A:2\nok 16\n";

const DELETED_ROW_IN_A_CHECKPOINT: &[u8] =
    b"node A *\nnode B *\nnode C *\nclient c A\nclient d B\nclient e C\n\
    stream s A B * bodies\nstream t B C *\nwrite c a/x \"1\"\nwrite c a/x \"2\"\n\
    delete c b/y\ncut A\nattach s\nsend s\ncheckpoint s\ndeliver s 1\nread d a/x\nsend s\n\
    deliver s 2\nread d a/x\nattach t\nsend t\ndeliver t 1\nread e a/x\ncheckpoint t\n\
    deliver t 2\nread e a/x\n";

const DELETED_ROW_IN_A_CHECKPOINT_TEXT: &[u8] =
    b"node A *\nnode B *\nnode C *\nclient c A\nclient d B\nclient e C\n\
    stream s A B * bodies\nstream t B C *\nwrite c a/x \"1\" 1@A over - after -\n\
    write c a/x \"2\" 2@A over 1@A after A:1\ndelete c b/y 3@A over - after A:2\n\
    cut A at A:3\nattach s at -\nstale s cut A:3\n\
    send s 1 checkpoint ~ to A:3 floor A:3 rows a/x=2@A(),b/y!3@A()\naccept s 1 at A:3\n\
    read d a/x body 2@A at A:3\nsend s 2 body a/x 2@A \"2\"\naccept s 2 at A:3\n\
    read d a/x value 2@A \"2\" at A:3\nattach t at -\nsend t 1 imprecise * from - to A:3\n\
    accept t 1 at A:3\nread e a/x imprecise 1@A at A:3\n\
    send t 2 checkpoint ~ to A:3 floor A:3 rows a/x=2@A(),b/y!3@A()\naccept t 2 at A:3\n\
    read e a/x body 2@A at A:3\nok 27\n";

const A_CLIENT_THAT_MOVES: &[u8] =
    b"node A *\nnode B *\nclient c A\nstream s A B *\nwrite c a/x \"1\"\nmove c B\n\
    read c a/x\nexpect behind\nwrite c a/y \"2\"\nattach s\nflow s 1\nread c a/x\n\
    write c a/y \"2\"\nmove c A\nread c a/y\n";

const A_CLIENT_THAT_MOVES_TEXT: &[u8] =
    b"node A *\nnode B *\nclient c A\nstream s A B *\nwrite c a/x \"1\" 1@A over - after -\n\
    move c B\nbehind c needs A:1 has -\nbehind c needs A:1 has -\nattach s at -\n\
    send s 1 precise a/x 1@A over - from - to A:1\naccept s 1 at A:1\n\
    read c a/x body 1@A at A:1\nwrite c a/y \"2\" 2@B over - after A:1\nmove c A\n\
    behind c needs A:1,B:2 has A:1\nok 15\n";

#[test]
fn bodies(rt: HostRuntime) -> Result<(), Fail> {
    assert!(rt; gives(&rt, rt.alloc(), BODIES, BODIES_TEXT)?);
    Ok(())
}

#[test]
fn phase(rt: HostRuntime) -> Result<(), Fail> {
    assert!(rt; gives(&rt, rt.alloc(), PHASE, PHASE_TEXT)?);
    Ok(())
}

#[test]
fn home(rt: HostRuntime) -> Result<(), Fail> {
    assert!(rt; gives(&rt, rt.alloc(), HOME, HOME_TEXT)?);
    Ok(())
}

#[test]
fn bodies_in_name_order(rt: HostRuntime) -> Result<(), Fail> {
    assert!(rt;
        gives(
            &rt,
            rt.alloc(),
            BODIES_IN_NAME_ORDER,
            BODIES_IN_NAME_ORDER_TEXT
        )?
    );
    Ok(())
}

#[test]
fn floor(rt: HostRuntime) -> Result<(), Fail> {
    assert!(rt; gives(&rt, rt.alloc(), FLOOR, FLOOR_TEXT)?);
    Ok(())
}

#[test]
fn deletes(rt: HostRuntime) -> Result<(), Fail> {
    assert!(rt; gives(&rt, rt.alloc(), DELETES, DELETES_TEXT)?);
    Ok(())
}

#[test]
fn deleted_row_in_a_checkpoint(rt: HostRuntime) -> Result<(), Fail> {
    assert!(rt;
        gives(
            &rt,
            rt.alloc(),
            DELETED_ROW_IN_A_CHECKPOINT,
            DELETED_ROW_IN_A_CHECKPOINT_TEXT
        )?
    );
    Ok(())
}

#[test]
fn a_client_that_moves(rt: HostRuntime) -> Result<(), Fail> {
    assert!(rt;
        gives(
            &rt,
            rt.alloc(),
            A_CLIENT_THAT_MOVES,
            A_CLIENT_THAT_MOVES_TEXT
        )?
    );
    Ok(())
}
