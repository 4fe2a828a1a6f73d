//! Scenarios of reminders.

use crate::steps::Reminder;
use std::test::Fail;
use wh_author_tools::follows;

#[test]
fn reminds_after_an_hour(rt: HostRuntime) -> Result<(), Fail> {
    follows::<Reminder>(
        rt.alloc(),
        "Reminder",
        r#"
        start            => StartTimer hour (3600 s)
        fired hour       => StartActivity mail SendMail
        done mail "sent" => Complete "sent"
        "#,
    )?;
    Ok(())
}

#[test]
fn fails_where_the_mail_is_not_sent(rt: HostRuntime) -> Result<(), Fail> {
    follows::<Reminder>(
        rt.alloc(),
        "Reminder",
        r#"
        start; fired hour => StartTimer hour (3600 s); StartActivity mail SendMail
        timed-out mail    => Fail mail
        "#,
    )?;
    Ok(())
}
