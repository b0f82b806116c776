// Scripts, with what is written for them. What they write was worked out apart from this
// program. Between two `%` stands a payment of ann@alpha: its name, its value and its payee.

// The setup of most scripts. Each line is in the form in which it is written.
pub(super) const OPENED: &str = "\
    START 2024-01-01T05:30:00+05:30\n\
    BANK AAAA\n\
    BANK BBBB\n\
    PSP alpha\n\
    PSP beta\n\
    ACCOUNT AAAA/1 100.00\n\
    ACCOUNT BBBB/1 5.00\n\
    ADDR ann@alpha AAAA/1 YES\n\
    ADDR bob@beta BBBB/1 YES\n\
    OPEN\n";

// Setups, scripts behind them, and what is written for them behind the setup: payments that go through, that
// are refused, and that stop on their way.
pub(super) const ROWS: [(&str, &str, &str, &str); 10] = [
    (
        "one payment",
        OPENED,
        "\
        SEND alpha %T1 30.00 bob@beta%\n\
        RUN\n\
        CLOSE\n",
        "\
        E 1 0 1704067200 HEAR alpha %T1 30.00 bob@beta% = OK\n\
        M 1 SWITCH beta REQAUTH T1 30.00\n\
        E 2 0 1704067200 DELIVER 1 = TOLD\n\
        M 2 beta SWITCH RESPAUTH T1 30.00 YES\n\
        E 3 0 1704067200 DELIVER 2 = OK\n\
        M 3 SWITCH AAAA DEBIT T1 30.00 AAAA/1\n\
        E 4 0 1704067200 DELIVER 3 = POSTED\n\
        M 4 AAAA SWITCH ANSWER T1 DEBIT POSTED\n\
        E 5 0 1704067200 DELIVER 4 = OK\n\
        M 5 SWITCH BBBB CREDIT T1 30.00 BBBB/1\n\
        E 6 0 1704067200 DELIVER 5 = POSTED\n\
        M 6 BBBB SWITCH ANSWER T1 CREDIT POSTED\n\
        E 7 0 1704067200 DELIVER 6 = OK\n\
        M 7 SWITCH alpha RESPPAY T1 SUCCESS\n\
        M 8 SWITCH beta CONFIRM T1 SUCCESS\n\
        E 8 0 1704067200 DELIVER 7 = TOLD\n\
        E 9 0 1704067200 DELIVER 8 = TOLD\n\
        M 9 beta SWITCH CONFIRMED T1\n\
        E 10 0 1704067200 DELIVER 9 = OK\n\
        E 11 0 1704067200 CLOSE = CLOSED\n\
        REPORT\n\
        row,id,bank,detail,amount,code\n\
        OUTCOME,T1,,SUCCESS,30.00,\n\
        SETTLE,T1,AAAA,PAID,30.00,\n\
        SETTLE,T1,BBBB,RECEIVED,30.00,\n\
        NET,,AAAA,,-30.00,\n\
        NET,,BBBB,,30.00,\n\
        BALANCE,1,AAAA,,70.00,\n\
        BALANCE,1,BBBB,,35.00,\n\
        FLIGHT,,,,0.00,\n",
    ),
    (
        "a close alone",
        OPENED,
        "\
        CLOSE\n",
        "\
        E 1 0 1704067200 CLOSE = CLOSED\n\
        REPORT\n\
        row,id,bank,detail,amount,code\n\
        NET,,AAAA,,0.00,\n\
        NET,,BBBB,,0.00,\n\
        BALANCE,1,AAAA,,100.00,\n\
        BALANCE,1,BBBB,,5.00,\n\
        FLIGHT,,,,0.00,\n",
    ),
    (
        "nothing but a setup",
        OPENED,
        "",
        "\
        E 1 0 1704067200 CLOSE = CLOSED\n\
        REPORT\n\
        row,id,bank,detail,amount,code\n\
        NET,,AAAA,,0.00,\n\
        NET,,BBBB,,0.00,\n\
        BALANCE,1,AAAA,,100.00,\n\
        BALANCE,1,BBBB,,5.00,\n\
        FLIGHT,,,,0.00,\n",
    ),
    (
        "all that is there",
        OPENED,
        "\
        SEND alpha %T1 100.00 bob@beta%\n\
        RUN\n",
        "\
        E 1 0 1704067200 HEAR alpha %T1 100.00 bob@beta% = OK\n\
        M 1 SWITCH beta REQAUTH T1 100.00\n\
        E 2 0 1704067200 DELIVER 1 = TOLD\n\
        M 2 beta SWITCH RESPAUTH T1 100.00 YES\n\
        E 3 0 1704067200 DELIVER 2 = OK\n\
        M 3 SWITCH AAAA DEBIT T1 100.00 AAAA/1\n\
        E 4 0 1704067200 DELIVER 3 = POSTED\n\
        M 4 AAAA SWITCH ANSWER T1 DEBIT POSTED\n\
        E 5 0 1704067200 DELIVER 4 = OK\n\
        M 5 SWITCH BBBB CREDIT T1 100.00 BBBB/1\n\
        E 6 0 1704067200 DELIVER 5 = POSTED\n\
        M 6 BBBB SWITCH ANSWER T1 CREDIT POSTED\n\
        E 7 0 1704067200 DELIVER 6 = OK\n\
        M 7 SWITCH alpha RESPPAY T1 SUCCESS\n\
        M 8 SWITCH beta CONFIRM T1 SUCCESS\n\
        E 8 0 1704067200 DELIVER 7 = TOLD\n\
        E 9 0 1704067200 DELIVER 8 = TOLD\n\
        M 9 beta SWITCH CONFIRMED T1\n\
        E 10 0 1704067200 DELIVER 9 = OK\n\
        E 11 0 1704067200 CLOSE = CLOSED\n\
        REPORT\n\
        row,id,bank,detail,amount,code\n\
        OUTCOME,T1,,SUCCESS,100.00,\n\
        SETTLE,T1,AAAA,PAID,100.00,\n\
        SETTLE,T1,BBBB,RECEIVED,100.00,\n\
        NET,,AAAA,,-100.00,\n\
        NET,,BBBB,,100.00,\n\
        BALANCE,1,AAAA,,0.00,\n\
        BALANCE,1,BBBB,,105.00,\n\
        FLIGHT,,,,0.00,\n",
    ),
    (
        "more than is there",
        OPENED,
        "\
        SEND alpha %T1 100.01 bob@beta%\n\
        RUN\n",
        "\
        E 1 0 1704067200 HEAR alpha %T1 100.01 bob@beta% = OK\n\
        M 1 SWITCH beta REQAUTH T1 100.01\n\
        E 2 0 1704067200 DELIVER 1 = TOLD\n\
        M 2 beta SWITCH RESPAUTH T1 100.01 YES\n\
        E 3 0 1704067200 DELIVER 2 = OK\n\
        M 3 SWITCH AAAA DEBIT T1 100.01 AAAA/1\n\
        E 4 0 1704067200 DELIVER 3 = DECLINED FUNDS\n\
        M 4 AAAA SWITCH ANSWER T1 DEBIT DECLINED FUNDS\n\
        E 5 0 1704067200 DELIVER 4 = OK\n\
        M 5 SWITCH alpha RESPPAY T1 FAILURE FUNDS\n\
        M 6 SWITCH beta CONFIRM T1 FAILURE FUNDS\n\
        E 6 0 1704067200 DELIVER 5 = TOLD\n\
        E 7 0 1704067200 DELIVER 6 = TOLD\n\
        M 7 beta SWITCH CONFIRMED T1\n\
        E 8 0 1704067200 DELIVER 7 = OK\n\
        E 9 0 1704067200 CLOSE = CLOSED\n\
        REPORT\n\
        row,id,bank,detail,amount,code\n\
        OUTCOME,T1,,FAILURE,100.01,FUNDS\n\
        NET,,AAAA,,0.00,\n\
        NET,,BBBB,,0.00,\n\
        BALANCE,1,AAAA,,100.00,\n\
        BALANCE,1,BBBB,,5.00,\n\
        FLIGHT,,,,0.00,\n",
    ),
    (
        "the same payment again, and another with its name",
        OPENED,
        "\
        SEND alpha %T1 30.00 bob@beta%\n\
        SEND alpha %T1 30.00 bob@beta%\n\
        SEND alpha %T1 31.00 bob@beta%\n",
        "\
        E 1 0 1704067200 HEAR alpha %T1 30.00 bob@beta% = OK\n\
        M 1 SWITCH beta REQAUTH T1 30.00\n\
        E 2 0 1704067200 HEAR alpha %T1 30.00 bob@beta% = OK\n\
        E 3 0 1704067200 HEAR alpha %T1 31.00 bob@beta% = NO DUP\n\
        E 4 0 1704067200 CLOSE = CLOSED\n\
        REPORT\n\
        row,id,bank,detail,amount,code\n\
        OUTCOME,T1,,FAILURE,30.00,CLOSED\n\
        NET,,AAAA,,0.00,\n\
        NET,,BBBB,,0.00,\n\
        BALANCE,1,AAAA,,100.00,\n\
        BALANCE,1,BBBB,,5.00,\n\
        FLIGHT,,,,0.00,\n",
    ),
    (
        "a debit that is repeated",
        OPENED,
        "\
        SEND alpha %T1 30.00 bob@beta%\n\
        DELIVER 1\n\
        DELIVER 2\n\
        REPEAT 3 3\n\
        DELIVER 4\n\
        DELIVER 5\n\
        DELIVER 6\n\
        RUN\n\
        CLOSE\n",
        "\
        E 1 0 1704067200 HEAR alpha %T1 30.00 bob@beta% = OK\n\
        M 1 SWITCH beta REQAUTH T1 30.00\n\
        E 2 0 1704067200 DELIVER 1 = TOLD\n\
        M 2 beta SWITCH RESPAUTH T1 30.00 YES\n\
        E 3 0 1704067200 DELIVER 2 = OK\n\
        M 3 SWITCH AAAA DEBIT T1 30.00 AAAA/1\n\
        E 4 0 1704067200 DELIVER 3 = POSTED\n\
        M 4 AAAA SWITCH ANSWER T1 DEBIT POSTED\n\
        E 5 0 1704067200 DELIVER 3 = POSTED\n\
        M 5 AAAA SWITCH ANSWER T1 DEBIT POSTED\n\
        E 6 0 1704067200 DELIVER 3 = POSTED\n\
        M 6 AAAA SWITCH ANSWER T1 DEBIT POSTED\n\
        E 7 0 1704067200 DELIVER 4 = OK\n\
        M 7 SWITCH BBBB CREDIT T1 30.00 BBBB/1\n\
        E 8 0 1704067200 DELIVER 5 = OK\n\
        E 9 0 1704067200 DELIVER 6 = OK\n\
        E 10 0 1704067200 DELIVER 7 = POSTED\n\
        M 8 BBBB SWITCH ANSWER T1 CREDIT POSTED\n\
        E 11 0 1704067200 DELIVER 8 = OK\n\
        M 9 SWITCH alpha RESPPAY T1 SUCCESS\n\
        M 10 SWITCH beta CONFIRM T1 SUCCESS\n\
        E 12 0 1704067200 DELIVER 9 = TOLD\n\
        E 13 0 1704067200 DELIVER 10 = TOLD\n\
        M 11 beta SWITCH CONFIRMED T1\n\
        E 14 0 1704067200 DELIVER 11 = OK\n\
        E 15 0 1704067200 CLOSE = CLOSED\n\
        REPORT\n\
        row,id,bank,detail,amount,code\n\
        OUTCOME,T1,,SUCCESS,30.00,\n\
        SETTLE,T1,AAAA,PAID,30.00,\n\
        SETTLE,T1,BBBB,RECEIVED,30.00,\n\
        NET,,AAAA,,-30.00,\n\
        NET,,BBBB,,30.00,\n\
        BALANCE,1,AAAA,,70.00,\n\
        BALANCE,1,BBBB,,35.00,\n\
        FLIGHT,,,,0.00,\n",
    ),
    (
        "a credit that never arrives",
        OPENED,
        "\
        SEND alpha %T1 30.00 bob@beta%\n\
        DELIVER 1\n\
        DELIVER 2\n\
        DELIVER 3\n\
        DELIVER 4\n\
        LOSE 5\n\
        TICK 30\n\
        CLOSE\n",
        "\
        E 1 0 1704067200 HEAR alpha %T1 30.00 bob@beta% = OK\n\
        M 1 SWITCH beta REQAUTH T1 30.00\n\
        E 2 0 1704067200 DELIVER 1 = TOLD\n\
        M 2 beta SWITCH RESPAUTH T1 30.00 YES\n\
        E 3 0 1704067200 DELIVER 2 = OK\n\
        M 3 SWITCH AAAA DEBIT T1 30.00 AAAA/1\n\
        E 4 0 1704067200 DELIVER 3 = POSTED\n\
        M 4 AAAA SWITCH ANSWER T1 DEBIT POSTED\n\
        E 5 0 1704067200 DELIVER 4 = OK\n\
        M 5 SWITCH BBBB CREDIT T1 30.00 BBBB/1\n\
        E 6 0 1704067200 LOSE 5 = LOST\n\
        E 7 0 1704067230 LATE T1 = DONE\n\
        M 6 SWITCH alpha RESPPAY T1 DEEMED\n\
        M 7 SWITCH beta CONFIRM T1 DEEMED\n\
        E 8 0 1704067230 CLOSE = CLOSED\n\
        REPORT\n\
        row,id,bank,detail,amount,code\n\
        OUTCOME,T1,,DEEMED,30.00,\n\
        SETTLE,T1,AAAA,PAID,30.00,\n\
        SETTLE,T1,BBBB,RECEIVED,30.00,\n\
        NET,,AAAA,,-30.00,\n\
        NET,,BBBB,,30.00,\n\
        RECON,T1,BBBB,,30.00,\n\
        BALANCE,1,AAAA,,70.00,\n\
        BALANCE,1,BBBB,,5.00,\n\
        FLIGHT,,,,30.00,\n",
    ),
    (
        "a debit that arrives after its reversal",
        OPENED,
        "\
        SEND alpha %T1 30.00 bob@beta%\n\
        DELIVER 1\n\
        DELIVER 2\n\
        TICK 30\n\
        DELIVER 4\n\
        DELIVER 3\n\
        DELIVER 5\n\
        DELIVER 6\n\
        CLOSE\n",
        "\
        E 1 0 1704067200 HEAR alpha %T1 30.00 bob@beta% = OK\n\
        M 1 SWITCH beta REQAUTH T1 30.00\n\
        E 2 0 1704067200 DELIVER 1 = TOLD\n\
        M 2 beta SWITCH RESPAUTH T1 30.00 YES\n\
        E 3 0 1704067200 DELIVER 2 = OK\n\
        M 3 SWITCH AAAA DEBIT T1 30.00 AAAA/1\n\
        E 4 0 1704067230 LATE T1 = DONE\n\
        M 4 SWITCH AAAA REVERSAL T1 30.00 AAAA/1\n\
        E 5 0 1704067230 DELIVER 4 = DECLINED NOTHING\n\
        M 5 AAAA SWITCH ANSWER T1 REVERSAL DECLINED NOTHING\n\
        E 6 0 1704067230 DELIVER 3 = DECLINED REVERSED\n\
        M 6 AAAA SWITCH ANSWER T1 DEBIT DECLINED REVERSED\n\
        E 7 0 1704067230 DELIVER 5 = OK\n\
        M 7 SWITCH alpha RESPPAY T1 FAILURE DEBITLATE\n\
        M 8 SWITCH beta CONFIRM T1 FAILURE DEBITLATE\n\
        E 8 0 1704067230 DELIVER 6 = NO DEBITLATE\n\
        E 9 0 1704067230 CLOSE = CLOSED\n\
        REPORT\n\
        row,id,bank,detail,amount,code\n\
        OUTCOME,T1,,FAILURE,30.00,DEBITLATE\n\
        NET,,AAAA,,0.00,\n\
        NET,,BBBB,,0.00,\n\
        BALANCE,1,AAAA,,100.00,\n\
        BALANCE,1,BBBB,,5.00,\n\
        FLIGHT,,,,0.00,\n",
    ),
    (
        "a payee that takes no credit",
        "\
        START 2024-01-01T05:30:00+05:30\n\
        BANK AAAA\n\
        BANK BBBB\n\
        PSP alpha\n\
        PSP beta\n\
        ACCOUNT AAAA/1 100.00\n\
        ACCOUNT BBBB/1 5.00 NOCREDIT\n\
        ADDR ann@alpha AAAA/1 YES\n\
        ADDR bob@beta BBBB/1 YES\n\
        OPEN\n",
        "\
        SEND alpha %T1 30.00 bob@beta%\n\
        RUN\n\
        CLOSE\n",
        "\
        E 1 0 1704067200 HEAR alpha %T1 30.00 bob@beta% = OK\n\
        M 1 SWITCH beta REQAUTH T1 30.00\n\
        E 2 0 1704067200 DELIVER 1 = TOLD\n\
        M 2 beta SWITCH RESPAUTH T1 30.00 YES\n\
        E 3 0 1704067200 DELIVER 2 = OK\n\
        M 3 SWITCH AAAA DEBIT T1 30.00 AAAA/1\n\
        E 4 0 1704067200 DELIVER 3 = POSTED\n\
        M 4 AAAA SWITCH ANSWER T1 DEBIT POSTED\n\
        E 5 0 1704067200 DELIVER 4 = OK\n\
        M 5 SWITCH BBBB CREDIT T1 30.00 BBBB/1\n\
        E 6 0 1704067200 DELIVER 5 = DECLINED NOCREDIT\n\
        M 6 BBBB SWITCH ANSWER T1 CREDIT DECLINED NOCREDIT\n\
        E 7 0 1704067200 DELIVER 6 = OK\n\
        M 7 SWITCH AAAA REVERSAL T1 30.00 AAAA/1\n\
        E 8 0 1704067200 DELIVER 7 = POSTED\n\
        M 8 AAAA SWITCH ANSWER T1 REVERSAL POSTED\n\
        E 9 0 1704067200 DELIVER 8 = OK\n\
        M 9 SWITCH alpha RESPPAY T1 FAILURE NOCREDIT\n\
        M 10 SWITCH beta CONFIRM T1 FAILURE NOCREDIT\n\
        E 10 0 1704067200 DELIVER 9 = TOLD\n\
        E 11 0 1704067200 DELIVER 10 = TOLD\n\
        M 11 beta SWITCH CONFIRMED T1\n\
        E 12 0 1704067200 DELIVER 11 = OK\n\
        E 13 0 1704067200 CLOSE = CLOSED\n\
        REPORT\n\
        row,id,bank,detail,amount,code\n\
        OUTCOME,T1,,FAILURE,30.00,NOCREDIT\n\
        NET,,AAAA,,0.00,\n\
        NET,,BBBB,,0.00,\n\
        BALANCE,1,AAAA,,100.00,\n\
        BALANCE,1,BBBB,,5.00,\n\
        FLIGHT,,,,0.00,\n",
    ),
];

// The same, of messages that are lost, repeated or late.
pub(super) const LATE_ROWS: [(&str, &str, &str, &str); 12] = [
    (
        "a close within a payment",
        OPENED,
        "\
        SEND alpha %T1 30.00 bob@beta%\n\
        DELIVER 1\n\
        DELIVER 2\n\
        DELIVER 3\n\
        CLOSE\n\
        DELIVER 4\n",
        "\
        E 1 0 1704067200 HEAR alpha %T1 30.00 bob@beta% = OK\n\
        M 1 SWITCH beta REQAUTH T1 30.00\n\
        E 2 0 1704067200 DELIVER 1 = TOLD\n\
        M 2 beta SWITCH RESPAUTH T1 30.00 YES\n\
        E 3 0 1704067200 DELIVER 2 = OK\n\
        M 3 SWITCH AAAA DEBIT T1 30.00 AAAA/1\n\
        E 4 0 1704067200 DELIVER 3 = POSTED\n\
        M 4 AAAA SWITCH ANSWER T1 DEBIT POSTED\n\
        E 5 0 1704067200 CLOSE = CLOSED\n\
        E 6 0 1704067200 DELIVER 4 = NO CLOSED\n\
        REPORT\n\
        row,id,bank,detail,amount,code\n\
        OUTCOME,T1,,FAILURE,30.00,CLOSED\n\
        NET,,AAAA,,0.00,\n\
        NET,,BBBB,,0.00,\n\
        BALANCE,1,AAAA,,100.00,\n\
        BALANCE,1,BBBB,,5.00,\n\
        FLIGHT,,,,0.00,\n",
    ),
    (
        "messages that were not sent",
        OPENED,
        "\
        SEND alpha %T1 30.00 bob@beta%\n\
        DELIVER 9\n\
        DELIVER 0\n",
        "\
        E 1 0 1704067200 HEAR alpha %T1 30.00 bob@beta% = OK\n\
        M 1 SWITCH beta REQAUTH T1 30.00\n\
        # NOMSG 9 1\n\
        # NOMSG 0 1\n\
        E 2 0 1704067200 CLOSE = CLOSED\n\
        REPORT\n\
        row,id,bank,detail,amount,code\n\
        OUTCOME,T1,,FAILURE,30.00,CLOSED\n\
        NET,,AAAA,,0.00,\n\
        NET,,BBBB,,0.00,\n\
        BALANCE,1,AAAA,,100.00,\n\
        BALANCE,1,BBBB,,5.00,\n\
        FLIGHT,,,,0.00,\n",
    ),
    (
        "a balance at the cap",
        "\
        START 2024-01-01T05:30:00+05:30\n\
        BANK AAAA\n\
        BANK BBBB\n\
        PSP alpha\n\
        PSP beta\n\
        ACCOUNT AAAA/1 100.00\n\
        ACCOUNT BBBB/1 9999999999999.99\n\
        ADDR ann@alpha AAAA/1 YES\n\
        ADDR bob@beta BBBB/1 YES\n\
        OPEN\n",
        "\
        SEND alpha %T1 0.01 bob@beta%\n\
        RUN\n",
        "\
        E 1 0 1704067200 HEAR alpha %T1 0.01 bob@beta% = OK\n\
        M 1 SWITCH beta REQAUTH T1 0.01\n\
        E 2 0 1704067200 DELIVER 1 = TOLD\n\
        M 2 beta SWITCH RESPAUTH T1 0.01 YES\n\
        E 3 0 1704067200 DELIVER 2 = OK\n\
        M 3 SWITCH AAAA DEBIT T1 0.01 AAAA/1\n\
        E 4 0 1704067200 DELIVER 3 = POSTED\n\
        M 4 AAAA SWITCH ANSWER T1 DEBIT POSTED\n\
        E 5 0 1704067200 DELIVER 4 = OK\n\
        M 5 SWITCH BBBB CREDIT T1 0.01 BBBB/1\n\
        E 6 0 1704067200 DELIVER 5 = POSTED\n\
        M 6 BBBB SWITCH ANSWER T1 CREDIT POSTED\n\
        E 7 0 1704067200 DELIVER 6 = OK\n\
        M 7 SWITCH alpha RESPPAY T1 SUCCESS\n\
        M 8 SWITCH beta CONFIRM T1 SUCCESS\n\
        E 8 0 1704067200 DELIVER 7 = TOLD\n\
        E 9 0 1704067200 DELIVER 8 = TOLD\n\
        M 9 beta SWITCH CONFIRMED T1\n\
        E 10 0 1704067200 DELIVER 9 = OK\n\
        E 11 0 1704067200 CLOSE = CLOSED\n\
        REPORT\n\
        row,id,bank,detail,amount,code\n\
        OUTCOME,T1,,SUCCESS,0.01,\n\
        SETTLE,T1,AAAA,PAID,0.01,\n\
        SETTLE,T1,BBBB,RECEIVED,0.01,\n\
        NET,,AAAA,,-0.01,\n\
        NET,,BBBB,,0.01,\n\
        BALANCE,1,AAAA,,99.99,\n\
        BALANCE,1,BBBB,,10000000000000.00,\n\
        FLIGHT,,,,0.00,\n",
    ),
    (
        "a balance above the cap",
        "\
        START 2024-01-01T05:30:00+05:30\n\
        BANK AAAA\n\
        BANK BBBB\n\
        PSP alpha\n\
        PSP beta\n\
        ACCOUNT AAAA/1 100.00\n\
        ACCOUNT BBBB/1 10000000000000.00\n\
        ADDR ann@alpha AAAA/1 YES\n\
        ADDR bob@beta BBBB/1 YES\n\
        OPEN\n",
        "\
        SEND alpha %T1 0.01 bob@beta%\n\
        RUN\n",
        "\
        E 1 0 1704067200 HEAR alpha %T1 0.01 bob@beta% = OK\n\
        M 1 SWITCH beta REQAUTH T1 0.01\n\
        E 2 0 1704067200 DELIVER 1 = TOLD\n\
        M 2 beta SWITCH RESPAUTH T1 0.01 YES\n\
        E 3 0 1704067200 DELIVER 2 = OK\n\
        M 3 SWITCH AAAA DEBIT T1 0.01 AAAA/1\n\
        E 4 0 1704067200 DELIVER 3 = POSTED\n\
        M 4 AAAA SWITCH ANSWER T1 DEBIT POSTED\n\
        E 5 0 1704067200 DELIVER 4 = OK\n\
        M 5 SWITCH BBBB CREDIT T1 0.01 BBBB/1\n\
        E 6 0 1704067200 DELIVER 5 = DECLINED CAP\n\
        M 6 BBBB SWITCH ANSWER T1 CREDIT DECLINED CAP\n\
        E 7 0 1704067200 DELIVER 6 = OK\n\
        M 7 SWITCH AAAA REVERSAL T1 0.01 AAAA/1\n\
        E 8 0 1704067200 DELIVER 7 = POSTED\n\
        M 8 AAAA SWITCH ANSWER T1 REVERSAL POSTED\n\
        E 9 0 1704067200 DELIVER 8 = OK\n\
        M 9 SWITCH alpha RESPPAY T1 FAILURE CAP\n\
        M 10 SWITCH beta CONFIRM T1 FAILURE CAP\n\
        E 10 0 1704067200 DELIVER 9 = TOLD\n\
        E 11 0 1704067200 DELIVER 10 = TOLD\n\
        M 11 beta SWITCH CONFIRMED T1\n\
        E 12 0 1704067200 DELIVER 11 = OK\n\
        E 13 0 1704067200 CLOSE = CLOSED\n\
        REPORT\n\
        row,id,bank,detail,amount,code\n\
        OUTCOME,T1,,FAILURE,0.01,CAP\n\
        NET,,AAAA,,0.00,\n\
        NET,,BBBB,,0.00,\n\
        BALANCE,1,AAAA,,100.00,\n\
        BALANCE,1,BBBB,,10000000000000.00,\n\
        FLIGHT,,,,0.00,\n",
    ),
    (
        "a confirmation that nobody answers",
        OPENED,
        "\
        SEND alpha %T1 30.00 bob@beta%\n\
        DELIVER 1\n\
        DELIVER 2\n\
        DELIVER 3\n\
        DELIVER 4\n\
        DELIVER 5\n\
        DELIVER 6\n\
        LOSE 8\n\
        TICK 30\n\
        TICK 30\n\
        TICK 30\n\
        TICK 30\n",
        "\
        E 1 0 1704067200 HEAR alpha %T1 30.00 bob@beta% = OK\n\
        M 1 SWITCH beta REQAUTH T1 30.00\n\
        E 2 0 1704067200 DELIVER 1 = TOLD\n\
        M 2 beta SWITCH RESPAUTH T1 30.00 YES\n\
        E 3 0 1704067200 DELIVER 2 = OK\n\
        M 3 SWITCH AAAA DEBIT T1 30.00 AAAA/1\n\
        E 4 0 1704067200 DELIVER 3 = POSTED\n\
        M 4 AAAA SWITCH ANSWER T1 DEBIT POSTED\n\
        E 5 0 1704067200 DELIVER 4 = OK\n\
        M 5 SWITCH BBBB CREDIT T1 30.00 BBBB/1\n\
        E 6 0 1704067200 DELIVER 5 = POSTED\n\
        M 6 BBBB SWITCH ANSWER T1 CREDIT POSTED\n\
        E 7 0 1704067200 DELIVER 6 = OK\n\
        M 7 SWITCH alpha RESPPAY T1 SUCCESS\n\
        M 8 SWITCH beta CONFIRM T1 SUCCESS\n\
        E 8 0 1704067200 LOSE 8 = LOST\n\
        E 9 0 1704067230 LATE T1 = DONE\n\
        M 9 SWITCH beta CONFIRM T1 SUCCESS\n\
        E 10 0 1704067260 LATE T1 = DONE\n\
        M 10 SWITCH beta CONFIRM T1 SUCCESS\n\
        E 11 0 1704067290 LATE T1 = DONE\n\
        M 11 SWITCH beta CONFIRM T1 SUCCESS\n\
        E 12 0 1704067320 CLOSE = CLOSED\n\
        REPORT\n\
        row,id,bank,detail,amount,code\n\
        OUTCOME,T1,,SUCCESS,30.00,\n\
        SETTLE,T1,AAAA,PAID,30.00,\n\
        SETTLE,T1,BBBB,RECEIVED,30.00,\n\
        NET,,AAAA,,-30.00,\n\
        NET,,BBBB,,30.00,\n\
        BALANCE,1,AAAA,,70.00,\n\
        BALANCE,1,BBBB,,35.00,\n\
        FLIGHT,,,,0.00,\n",
    ),
    (
        "a payee that says no",
        "\
        START 2024-01-01T05:30:00+05:30\n\
        BANK AAAA\n\
        BANK BBBB\n\
        PSP alpha\n\
        PSP beta\n\
        ACCOUNT AAAA/1 100.00\n\
        ACCOUNT BBBB/1 5.00\n\
        ADDR ann@alpha AAAA/1 YES\n\
        ADDR bob@beta BBBB/1 NO\n\
        OPEN\n",
        "\
        SEND alpha %T1 30.00 bob@beta%\n\
        RUN\n",
        "\
        E 1 0 1704067200 HEAR alpha %T1 30.00 bob@beta% = OK\n\
        M 1 SWITCH beta REQAUTH T1 30.00\n\
        E 2 0 1704067200 DELIVER 1 = TOLD\n\
        M 2 beta SWITCH RESPAUTH T1 30.00 NO\n\
        E 3 0 1704067200 DELIVER 2 = OK\n\
        M 3 SWITCH alpha RESPPAY T1 FAILURE DECLINED\n\
        M 4 SWITCH beta CONFIRM T1 FAILURE DECLINED\n\
        E 4 0 1704067200 DELIVER 3 = TOLD\n\
        E 5 0 1704067200 DELIVER 4 = TOLD\n\
        M 5 beta SWITCH CONFIRMED T1\n\
        E 6 0 1704067200 DELIVER 5 = OK\n\
        E 7 0 1704067200 CLOSE = CLOSED\n\
        REPORT\n\
        row,id,bank,detail,amount,code\n\
        OUTCOME,T1,,FAILURE,30.00,DECLINED\n\
        NET,,AAAA,,0.00,\n\
        NET,,BBBB,,0.00,\n\
        BALANCE,1,AAAA,,100.00,\n\
        BALANCE,1,BBBB,,5.00,\n\
        FLIGHT,,,,0.00,\n",
    ),
    (
        "a payment to oneself",
        "\
        START 2024-01-01T05:30:00+05:30\n\
        BANK AAAA\n\
        BANK BBBB\n\
        PSP alpha\n\
        PSP beta\n\
        ACCOUNT AAAA/1 100.00\n\
        ACCOUNT BBBB/1 5.00\n\
        ADDR ann@alpha AAAA/1 YES\n\
        ADDR bob@beta BBBB/1 YES\n\
        ADDR ann2@alpha AAAA/1 YES\n\
        OPEN\n",
        "\
        SEND alpha %T1 30.00 ann2@alpha%\n",
        "\
        E 1 0 1704067200 HEAR alpha %T1 30.00 ann2@alpha% = NO SAME\n\
        E 2 0 1704067200 CLOSE = CLOSED\n\
        REPORT\n\
        row,id,bank,detail,amount,code\n\
        NET,,AAAA,,0.00,\n\
        NET,,BBBB,,0.00,\n\
        BALANCE,1,AAAA,,100.00,\n\
        BALANCE,1,BBBB,,5.00,\n\
        FLIGHT,,,,0.00,\n",
    ),
    (
        "an unknown payee",
        OPENED,
        "\
        SEND alpha %T1 30.00 zed@beta%\n",
        "\
        E 1 0 1704067200 HEAR alpha %T1 30.00 zed@beta% = NO ADDR\n\
        E 2 0 1704067200 CLOSE = CLOSED\n\
        REPORT\n\
        row,id,bank,detail,amount,code\n\
        NET,,AAAA,,0.00,\n\
        NET,,BBBB,,0.00,\n\
        BALANCE,1,AAAA,,100.00,\n\
        BALANCE,1,BBBB,,5.00,\n\
        FLIGHT,,,,0.00,\n",
    ),
    (
        "sent by another PSP",
        OPENED,
        "\
        SEND beta %T1 30.00 bob@beta%\n",
        "\
        E 1 0 1704067200 HEAR beta %T1 30.00 bob@beta% = NO NOTYOURS\n\
        E 2 0 1704067200 CLOSE = CLOSED\n\
        REPORT\n\
        row,id,bank,detail,amount,code\n\
        NET,,AAAA,,0.00,\n\
        NET,,BBBB,,0.00,\n\
        BALANCE,1,AAAA,,100.00,\n\
        BALANCE,1,BBBB,,5.00,\n\
        FLIGHT,,,,0.00,\n",
    ),
    (
        "every eighth message lost, every other one delivered twice",
        OPENED,
        "\
        SEND alpha %T1 30.00 bob@beta%\n\
        RUN 8 2\n",
        "\
        E 1 0 1704067200 HEAR alpha %T1 30.00 bob@beta% = OK\n\
        M 1 SWITCH beta REQAUTH T1 30.00\n\
        E 2 0 1704067200 DELIVER 1 = TOLD\n\
        M 2 beta SWITCH RESPAUTH T1 30.00 YES\n\
        E 3 0 1704067200 DELIVER 2 = OK\n\
        M 3 SWITCH AAAA DEBIT T1 30.00 AAAA/1\n\
        E 4 0 1704067200 DELIVER 2 = OK\n\
        E 5 0 1704067200 DELIVER 3 = POSTED\n\
        M 4 AAAA SWITCH ANSWER T1 DEBIT POSTED\n\
        E 6 0 1704067200 DELIVER 4 = OK\n\
        M 5 SWITCH BBBB CREDIT T1 30.00 BBBB/1\n\
        E 7 0 1704067200 DELIVER 4 = OK\n\
        E 8 0 1704067200 DELIVER 5 = POSTED\n\
        M 6 BBBB SWITCH ANSWER T1 CREDIT POSTED\n\
        E 9 0 1704067200 DELIVER 6 = OK\n\
        M 7 SWITCH alpha RESPPAY T1 SUCCESS\n\
        M 8 SWITCH beta CONFIRM T1 SUCCESS\n\
        E 10 0 1704067200 DELIVER 6 = OK\n\
        E 11 0 1704067200 DELIVER 7 = TOLD\n\
        E 12 0 1704067200 LOSE 8 = LOST\n\
        E 13 0 1704067200 CLOSE = CLOSED\n\
        REPORT\n\
        row,id,bank,detail,amount,code\n\
        OUTCOME,T1,,SUCCESS,30.00,\n\
        SETTLE,T1,AAAA,PAID,30.00,\n\
        SETTLE,T1,BBBB,RECEIVED,30.00,\n\
        NET,,AAAA,,-30.00,\n\
        NET,,BBBB,,30.00,\n\
        BALANCE,1,AAAA,,70.00,\n\
        BALANCE,1,BBBB,,35.00,\n\
        FLIGHT,,,,0.00,\n",
    ),
    (
        "two that are due at once",
        OPENED,
        "\
        SEND alpha %T2 1.00 bob@beta%\n\
        SEND alpha %T1 2.00 bob@beta%\n\
        TICK 29\n\
        TICK 1\n",
        "\
        E 1 0 1704067200 HEAR alpha %T2 1.00 bob@beta% = OK\n\
        M 1 SWITCH beta REQAUTH T2 1.00\n\
        E 2 0 1704067200 HEAR alpha %T1 2.00 bob@beta% = OK\n\
        M 2 SWITCH beta REQAUTH T1 2.00\n\
        E 3 0 1704067230 LATE T1 = DONE\n\
        M 3 SWITCH alpha RESPPAY T1 FAILURE AUTHLATE\n\
        M 4 SWITCH beta CONFIRM T1 FAILURE AUTHLATE\n\
        E 4 0 1704067230 LATE T2 = DONE\n\
        M 5 SWITCH alpha RESPPAY T2 FAILURE AUTHLATE\n\
        M 6 SWITCH beta CONFIRM T2 FAILURE AUTHLATE\n\
        E 5 0 1704067230 CLOSE = CLOSED\n\
        REPORT\n\
        row,id,bank,detail,amount,code\n\
        OUTCOME,T2,,FAILURE,1.00,AUTHLATE\n\
        OUTCOME,T1,,FAILURE,2.00,AUTHLATE\n\
        NET,,AAAA,,0.00,\n\
        NET,,BBBB,,0.00,\n\
        BALANCE,1,AAAA,,100.00,\n\
        BALANCE,1,BBBB,,5.00,\n\
        FLIGHT,,,,0.00,\n",
    ),
    (
        "calls after the close",
        OPENED,
        "\
        SEND alpha %T1 30.00 bob@beta%\n\
        REPEAT 2 3\n\
        LOSE 1\n\
        LOSE 1\n\
        CLOSE\n\
        CLOSE\n\
        DELIVER 7\n\
        SEND alpha %T2 1.00 bob@beta%\n\
        TICK 60\n\
        RUN\n",
        "\
        E 1 0 1704067200 HEAR alpha %T1 30.00 bob@beta% = OK\n\
        M 1 SWITCH beta REQAUTH T1 30.00\n\
        # NOMSG 2 1\n\
        E 2 0 1704067200 LOSE 1 = LOST\n\
        E 3 0 1704067200 LOSE 1 = LOST\n\
        E 4 0 1704067200 CLOSE = CLOSED\n\
        E 5 0 1704067200 CLOSE = NO CLOSED\n\
        # NOMSG 7 1\n\
        E 6 0 1704067200 HEAR alpha %T2 1.00 bob@beta% = NO CLOSED\n\
        REPORT\n\
        row,id,bank,detail,amount,code\n\
        OUTCOME,T1,,FAILURE,30.00,CLOSED\n\
        NET,,AAAA,,0.00,\n\
        NET,,BBBB,,0.00,\n\
        BALANCE,1,AAAA,,100.00,\n\
        BALANCE,1,BBBB,,5.00,\n\
        FLIGHT,,,,0.00,\n",
    ),
];
